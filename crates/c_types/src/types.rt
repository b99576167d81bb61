// The structs of numbers that cross to C by value, in the order of include/cfu.h. A `number` is 0 or the number of a refusal.

// A version by its three parts.
#[repr(C)]
#[derive(Clone, Copy, Default)]
pub struct CVersion {
    pub major: u8,
    pub minor: u16,
    pub variant: u8,
}

// An offer. The two flags are 0 or 1.
#[repr(C)]
#[derive(Clone, Copy, Default)]
pub struct COffer {
    pub segment: u8,
    pub force_immediate_reset: u8,
    pub force_ignore_version: u8,
    pub id: u8,
    pub token: u8,
    pub version: CVersion,
    pub need: u8,
    pub least: u32,
    pub protocol: u8,
    pub platform: u16,
}

// An information or an extended packet.
#[repr(C)]
#[derive(Clone, Copy, Default)]
pub struct CSignal {
    pub code: u8,
    pub token: u8,
}

// A packet of the offer channel: its kind is 1 for an offer, 2 for information, 3 for extended, 0 for none; what is of another kind is zero.
#[repr(C)]
#[derive(Clone, Copy, Default)]
pub struct COfferPacket {
    pub number: u32,
    pub kind: u32,
    pub offer: COffer,
    pub signal: CSignal,
}

#[repr(C)]
#[derive(Clone, Copy)]
pub struct COfferReply {
    pub number: u32,
    pub token: u8,
    pub reason: u8,
    pub status: u8,
}

// A content packet; its data are lent bytes.
#[repr(C)]
#[derive(Clone, Copy, Default)]
pub struct CContent {
    pub number: u32,
    pub flags: u8,
    pub length: u8,
    pub sequence: u16,
    pub address: u32,
}

#[repr(C)]
#[derive(Clone, Copy)]
pub struct CContentReply {
    pub number: u32,
    pub sequence: u16,
    pub status: u8,
}

// A version reply; its components are lent bytes.
#[repr(C)]
#[derive(Clone, Copy, Default)]
pub struct CVersionReply {
    pub number: u32,
    pub count: u8,
    pub protocol: u8,
}

// How many replies the device sends.
#[repr(C)]
#[derive(Clone, Copy)]
pub struct CReplies {
    pub number: u32,
    pub count: u32,
}

// What the check of a bundle says: the entry that it names, and how many offers there are.
#[repr(C)]
#[derive(Clone, Copy)]
pub struct CCheck {
    pub number: u32,
    pub entry: u32,
    pub count: u32,
}

// What the writer of a bundle says: the entry that its row names, and how long the bundle is.
#[repr(C)]
#[derive(Clone, Copy)]
pub struct CWritten {
    pub number: u32,
    pub entry: u32,
    pub length: u32,
}

// What a step of the host says: the entry that a bundle's row names, and how many bytes of the packet are sent.
#[repr(C)]
#[derive(Clone, Copy)]
pub struct CStep {
    pub number: u32,
    pub entry: u32,
    pub length: u32,
}

// The host's report: completed offers, their mask, packets, passes, how it ended, and the content status of H1.
#[repr(C)]
#[derive(Clone, Copy)]
pub struct CReport {
    pub number: u32,
    pub completed: u32,
    pub mask: u32,
    pub packets: u32,
    pub passes: u32,
    pub ending: u32,
    pub status: u32,
}

// A component of the list that set-up takes.
#[repr(C)]
#[derive(Clone, Copy)]
pub struct CListed {
    pub id: u8,
    pub running: CVersion,
    pub base: u32,
    pub length: u32,
    pub floor: CVersion,
}

// A component of a device: what runs, its region, its floor, whether a version is staged, 0 or 1, and that version, zero where none is.
#[repr(C)]
#[derive(Clone, Copy)]
pub struct CComponent {
    pub number: u32,
    pub id: u8,
    pub running: CVersion,
    pub base: u32,
    pub length: u32,
    pub floor: CVersion,
    pub pending: u8,
    pub staged: CVersion,
}

// An entry of a checked bundle: where its body stands, how long it is and how many records it has; `entry` is the one that a bundle's row names.
#[repr(C)]
#[derive(Clone, Copy)]
pub struct CEntry {
    pub number: u32,
    pub entry: u32,
    pub offset: u32,
    pub length: u32,
    pub records: u32,
}
