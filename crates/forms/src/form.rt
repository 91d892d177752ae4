// The forms of the six steps: what is asked of each, cell by cell (rules 1, sheets 5).
use orders::price::Price;

/// The cells of an entry (rules 8); `None` is a blank cell. Prices are hundredths, quantities are
/// lots.
// Side, type and validity are numbers as in the published format: whether they name any is checked
// later, with refusal 8.
#[derive(Clone, Copy)]
pub struct EntryForm {
    pub firm: Option<u64>,
    pub client: Option<u64>,
    pub side: Option<u64>,
    pub order_type: Option<u8>,
    pub validity: Option<u64>,
    pub price: Option<Price>,
    pub trigger: Option<Price>,
    pub quantity: Option<u64>,
    pub disclosed: Option<u64>,
    pub minimum: Option<u64>,
    pub investor: Option<u64>,
    pub tag: Option<u64>,
}

/// The cells of a change (rules 13): a blank price, quantity, disclosed or validity stays
/// unchanged.
#[derive(Clone, Copy)]
pub struct ChangeForm {
    pub firm: Option<u64>,
    pub client: Option<u64>,
    pub number: Option<u64>,
    pub price: Option<Price>,
    pub quantity: Option<u64>,
    pub disclosed: Option<u64>,
    pub validity: Option<u64>,
}

/// The cells of a cancel (rules 14).
#[derive(Clone, Copy)]
pub struct CancelForm {
    pub firm: Option<u64>,
    pub number: Option<u64>,
}

/// The cells of a mass cancel (rules 14): all of the firm's orders and stops that match every
/// filled cell are cancelled.
#[derive(Clone, Copy)]
pub struct MassCancelForm {
    pub firm: Option<u64>,
    pub side: Option<u64>,
    pub tag: Option<u64>,
    pub investor: Option<u64>,
}

/// The cell of an opening (rules 15).
#[derive(Clone, Copy)]
pub struct OpeningForm {
    pub day: Option<u64>,
}

/// The step that a row or a caller asks for, with its cells.
#[derive(Clone, Copy)]
pub enum Form {
    Entry(EntryForm),
    Change(ChangeForm),
    Cancel(CancelForm),
    MassCancel(MassCancelForm),
    Closing,
    Opening(OpeningForm),
}
