// The host's next step, a table of rows by stage and reply class (document 01, "The host").
#![tactic(auto)]

ghost use Rattle.std.specs.Prelude.{◌≡◌};
ghost use Rattle.host_table.specs.Table.{class_of, cell, code_of, number_of};

// What the host does next; the cells with no step end with H3.
#[derive(Clone, Copy, PartialEq, Eq)]
pub enum Step {
    List,
    Offer,
    Send,
    NextOffer,
    Wait,
    Same,
    Decide,
}

// The rows, by stage.
#[derive(Clone, Copy, PartialEq, Eq)]
pub enum Row {
    Opening = 0,
    Listing = 1,
    Offering = 2,
    Waiting = 3,
    Closing = 4,
}

impl Row {
    // Its number in the table.
    pub fn number(self) -> usize
        ensures { result ≡ number_of self }
    {
        self as usize
    }
}

const NONE: Option<Step> = None;

const LIST: Option<Step> = Some(Step::List);

const OFFER: Option<Step> = Some(Step::Offer);

const SEND: Option<Step> = Some(Step::Send);

const NEXT_OFFER: Option<Step> = Some(Step::NextOffer);

const WAIT: Option<Step> = Some(Step::Wait);

const SAME: Option<Step> = Some(Step::Same);

const DECIDE: Option<Step> = Some(Step::Decide);

// A row for each stage, in their order. The columns: SKIP, ACCEPT, REJECT, BUSY, READY, any other status.
const TABLE: [[Option<Step>; 6]; 5] = [
    [NONE, LIST, NONE, NONE, NONE, NONE],
    [NONE, OFFER, NONE, NONE, NONE, NONE],
    [NEXT_OFFER, SEND, NEXT_OFFER, WAIT, NONE, NONE],
    [NONE, NONE, NONE, NONE, SAME, NONE],
    [NONE, DECIDE, NONE, NONE, NONE, NONE],
];

// The column of a status.
fn class(status: u8) -> usize
    ensures { result ≡ class_of status }
{
    if status < 5 { status as usize } else { 5 }
}

// The step of a row, by its number, for a status; there is none past the rows.
pub fn code_for(row: usize, status: u8) -> Option<Step>
    ensures { code_of result ≡ cell row status }
{
    if row < 5 {
        TABLE[row][class(status)]
    } else {
        NONE
    }
}
