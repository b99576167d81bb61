// Every code, status and reject reason that this updater uses, by CFU's names where it has one, and the sizes and limits of packets. The codes stay numbers
// and no enums: an enum would be no plainer, since a byte that arrives may be any of 256, and `fields_in` and `reply_in` hand each on as it stands.

// The protocol's number; no other is supported.
pub const PROTOCOL: u8 = 2;

// The most components that a device has: as many as a version reply holds.
pub const COMPONENT_LIMIT: usize = 7;

// The highest id of a component; the lowest is 1.
pub const ID_LIMIT: u8 = 0xDF;

// The size of a packet on the offer channel, which is also that of both replies. Of a content packet: where its data start, how many bytes of data it has room
// for, and its size.
pub const SHORT_SIZE: usize = 16;

pub const DATA_AT: usize = 8;

pub const DATA_SIZE: usize = 52;

pub const LONG_SIZE: usize = DATA_AT + DATA_SIZE;

// Byte 2 of a packet on the offer channel that is not an offer.
pub const KIND_INFORMATION: u8 = 0xFF;

pub const KIND_EXTENDED: u8 = 0xFE;

// Information codes.
pub const INFO_START_ENTIRE_TRANSACTION: u8 = 0;

pub const INFO_START_OFFER_LIST: u8 = 1;

pub const INFO_END_OFFER_LIST: u8 = 2;

// Extended codes.
pub const NOTIFY_ON_READY: u8 = 1;

// Offer reply, status.
pub const OFFER_SKIP: u8 = 0;

pub const OFFER_ACCEPT: u8 = 1;

pub const OFFER_REJECT: u8 = 2;

pub const OFFER_BUSY: u8 = 3;

pub const OFFER_READY: u8 = 4;

pub const OFFER_UNSUPPORTED: u8 = 0xFF;

// Offer reply, reject reason.
pub const REJECT_OLD_FW: u8 = 0;

pub const REJECT_INV_COMPONENT: u8 = 1;

pub const REJECT_SWAP_PENDING: u8 = 2;

pub const REJECT_WRONG_PROTOCOL: u8 = 0xE0;

pub const REJECT_WRONG_SEGMENT: u8 = 0xE1;

pub const REJECT_WRONG_VARIANT: u8 = 0xE2;

// Content, flags.
pub const FLAG_FIRST_BLOCK: u8 = 0x80;

pub const FLAG_LAST_BLOCK: u8 = 0x40;

// Content reply, status.
pub const SUCCESS: u8 = 0;

pub const ERROR_VERIFY: u8 = 0x04;

pub const ERROR_CRC: u8 = 0x05;

pub const ERROR_VERSION: u8 = 0x07;

pub const ERROR_INVALID_ADDR: u8 = 0x09;

pub const ERROR_NO_OFFER: u8 = 0x0A;

pub const ERROR_INVALID: u8 = 0x0B;
