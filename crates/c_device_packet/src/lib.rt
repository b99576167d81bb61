// The device's calls from C for packets (document 01, "The device", rows D and C). The record is lent bytes; where a row refuses, it stays as it is.
#![tactic(auto)]

ghost use Rattle.std.specs.Prelude.{◌≡◌, ◌++◌, length};
ghost use Rattle.device.specs.Refusals.{sent_with};
ghost use Rattle.c_device_packet.specs.Packet.{replies_size, answered_by, answer_left, replies_left, told_replies, offer_call, content_call, content_call_staging};

use c_device::device_number;
use c_types::lent::lent_number;
use c_types::numbers::{SERVED, WRONG_OUTPUT};
use c_types::types::CReplies;
use device::answer::{Refusal, ready_reply};
use device_bytes::DEVICE_SIZE;
use device_in_place::content::content_in_place;
use device_in_place::offer::offer_in_place;
use device_session::effect::Replies;
use wire::codes::SHORT_SIZE;
use wire::words;

// A buffer for the replies of the device: two at the most.
const REPLIES_SIZE: usize = 2 * SHORT_SIZE;

// Two replies, one after the other.
fn joined(first: [u8; SHORT_SIZE], second: [u8; SHORT_SIZE]) -> [u8; REPLIES_SIZE]
    ensures { result ≡ first ++ second }
{
    let mut out = [0u8; REPLIES_SIZE];
    words::copy(&mut out[0..SHORT_SIZE], &first);
    words::copy(&mut out[SHORT_SIZE..REPLIES_SIZE], &second);
    out
}

// The replies that are sent: the one that is due and the READY that was owed, zeros behind them.
fn replies_of(replies: Replies) -> [u8; REPLIES_SIZE]
    ensures { result ≡ replies_left replies }
{
    let none = [0u8; SHORT_SIZE];
    let reply = replies.reply;
    let ready = replies.ready;
    match ready {
        None => {
            if replies.due {
                joined(reply, none)
            } else {
                joined(none, none)
            }
        }
        Some(token) => {
            let b = ready_reply(token);
            if replies.due {
                joined(reply, b)
            } else {
                joined(b, none)
            }
        }
    }
}

// How many they are.
fn count_of(replies: Replies) -> u32
    ensures { result ≡ length (sent_with replies) }
{
    let ready = replies.ready;
    match ready {
        None => { if replies.due { 1 } else { 0 } }
        Some(_) => { if replies.due { 2 } else { 1 } }
    }
}

// What an answer leaves; the record is left already.
fn answered(a: Result<Replies, Refusal>, replies: &mut [u8]) -> CReplies
    requires { length replies.old ≡ replies_size }
    ensures { (result ≡ answered_by a) × (replies.new ≡ answer_left a) }
{
    match a {
        Ok(sent) => {
            replies.copy_from_slice(&replies_of(sent));
            CReplies {
                number: SERVED,
                count: count_of(sent),
            }
        }
        Err(refusal) => {
            replies.fill(0);
            CReplies {
                number: device_number(refusal),
                count: 0,
            }
        }
    }
}

// An offer, an information or an extended packet.
pub fn cfu_device_offer(
    device: &mut [u8],
    staging: &[u8],
    report: &[u8],
    replies: &mut [u8],
) -> CReplies
    ensures { told_replies result device.new replies.new ≡ offer_call device.old (length staging.now) report.now replies.old }
{
    let number = lent_number(
        device.len() == DEVICE_SIZE,
        replies.len() == REPLIES_SIZE,
        WRONG_OUTPUT,
    );
    if number != SERVED {
        return CReplies { number, count: 0 };
    }
    answered(offer_in_place(device, staging, report), replies)
}

pub fn cfu_device_content(
    device: &mut [u8],
    staging: &mut [u8],
    report: &[u8],
    replies: &mut [u8],
) -> CReplies
    ensures { (told_replies result device.new replies.new ≡ content_call device.old staging.old report.now replies.old)
        × (staging.new ≡ content_call_staging device.old staging.old report.now replies.old) }
{
    let number = lent_number(
        device.len() == DEVICE_SIZE,
        replies.len() == REPLIES_SIZE,
        WRONG_OUTPUT,
    );
    if number != SERVED {
        return CReplies { number, count: 0 };
    }
    answered(content_in_place(device, staging, report), replies)
}
