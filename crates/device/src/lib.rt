// The device end: its record, and what each entry answers.
#![tactic(auto)]

pub mod record; // record.rt: the record
pub mod answer; // answer.rt: what an entry answers
pub mod refusal; // refusal.rt: rows D1 to D3
pub mod setup; // setup.rt: set-up, rows S1 to S5
pub mod version_reply; // version_reply.rt: the version reply
pub mod reset; // reset.rt: the reset
pub mod offer; // offer.rt: the offer entry
pub mod content; // content.rt: the content entry
pub mod serve; // serve.rt: the entry by channel
