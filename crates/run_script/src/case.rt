// A case of a whole run, as its frame has it (tests/update/README.md).
use device_bytes::DEVICE_SIZE;
use run_print::fields::Fields;
use run_print::script::Frame;

// How long the staging buffer of a case may be.
pub const STAGING_SIZE: usize = 512;

#[derive(Clone, Copy)]
pub struct Case<'a> {
    pub token: u8,
    // The byte that fills the staging buffer.
    pub fill: u8,
    // In a frame T: a bit for each packet that arrives twice.
    pub pattern: Option<u64>,
    // The device's record; the blank one where the payload is too short for it.
    pub record: [u8; DEVICE_SIZE],
    pub bundle: &'a [u8],
}

impl<'a> Case<'a> {
    pub fn read(frame: Frame<'a>) -> Self {
        let mut fields = Fields(frame.payload);
        let token = fields.byte();
        let fill = fields.byte();
        let pattern = match frame.kind {
            b'T' => Some(u64::from_le_bytes(fields.array())),
            _ => None,
        };
        let record = fields.array();
        let bundle = fields.0;
        Case {
            token,
            fill,
            pattern,
            record,
            bundle,
        }
    }
}
