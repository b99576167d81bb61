// Why a packet is not built or not read (document 01, "Numbered refusals").
ghost use Rattle.std.specs.Prelude.{◌≡◌};
ghost use Rattle.wire.specs.Rows.{number_of, row_number, told};

#[derive(Clone, Copy, Debug, PartialEq, Eq)]
pub enum PacketRefusal {
    // Reading: the packet is not of its kind's length.
    P1,
    // Building: a value that its field cannot hold. Version reply, either way: a count over the limit, another protocol.
    P2,
}

impl PacketRefusal {
    // The number of the row that refuses.
    pub fn number(self) -> u8
        ensures { result ≡ number_of self }
    {
        match self {
            PacketRefusal::P1 => 1,
            PacketRefusal::P2 => 2,
        }
    }
}

// What a build or a read answers: the number of its row, or 0, and its bytes or fields, which are these zeros where a row refuses.
pub fn told<T: Copy>(answer: Result<T, PacketRefusal>, zeros: T) -> (u8, T)
    ensures number { result.0 ≡ row_number (told zeros answer).row }
    ensures value { result.1 ≡ (told zeros answer).value }
{
    match answer {
        Ok(value) => (0, value),
        Err(refusal) => (refusal.number(), zeros),
    }
}
