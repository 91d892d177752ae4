// The form of the cells of a line.
ghost use Rattle.std.specs.Prelude.{◌≡◌, None, slice_index_or};
ghost use Rattle.line_format.specs.Lines.{cell_number, cell_byte, cell_price, entry_form, change_form, cancel_form, mass_cancel_form, opening_form, form_of};

use crate::cells::Cells;
use crate::values::Value;
use forms::form::{CancelForm, ChangeForm, EntryForm, Form, MassCancelForm, OpeningForm};
use orders::price::Price;
use sheets::letter::Letter;

impl Cells {
    // The number in a cell, where it has one.
    fn number(self, index: usize) -> Option<u64>
        ensures { result ≡ cell_number (slice_index_or self.values index None) }
    {
        match self.at(index) {
            Some(Value::Number(n)) => Some(n),
            _ => None,
        }
    }

    // The byte in a cell, where it has one.
    fn byte(self, index: usize) -> Option<u8>
        ensures { result ≡ cell_byte (slice_index_or self.values index None) }
    {
        match self.at(index) {
            Some(Value::Byte(b)) => Some(b),
            _ => None,
        }
    }

    // The price in a cell, where it has one.
    fn price(self, index: usize) -> Option<Price>
        ensures { result ≡ cell_price (slice_index_or self.values index None) }
    {
        match self.at(index) {
            Some(Value::Price(p)) => Some(p),
            _ => None,
        }
    }

    // The cells in the order of an entry's columns.
    fn entry(self) -> EntryForm
        ensures { result ≡ entry_form self.values }
    {
        EntryForm {
            firm: self.number(0),
            client: self.number(1),
            side: self.number(2),
            order_type: self.byte(3),
            validity: self.number(4),
            price: self.price(5),
            trigger: self.price(6),
            quantity: self.number(7),
            disclosed: self.number(8),
            minimum: self.number(9),
            investor: self.number(10),
            tag: self.number(11),
        }
    }

    // The cells in the order of a change's columns.
    fn change(self) -> ChangeForm
        ensures { result ≡ change_form self.values }
    {
        ChangeForm {
            firm: self.number(0),
            client: self.number(1),
            number: self.number(2),
            price: self.price(3),
            quantity: self.number(4),
            disclosed: self.number(5),
            validity: self.number(6),
        }
    }

    // The cells in the order of a cancel's columns.
    fn cancel(self) -> CancelForm
        ensures { result ≡ cancel_form self.values }
    {
        CancelForm {
            firm: self.number(0),
            number: self.number(1),
        }
    }

    // The cells in the order of a mass cancel's columns.
    fn mass_cancel(self) -> MassCancelForm
        ensures { result ≡ mass_cancel_form self.values }
    {
        MassCancelForm {
            firm: self.number(0),
            side: self.number(1),
            tag: self.number(2),
            investor: self.number(3),
        }
    }

    // The cell of an opening.
    fn opening(self) -> OpeningForm
        ensures { result ≡ opening_form self.values }
    {
        OpeningForm {
            day: self.number(0),
        }
    }

    // The form of a letter's cells.
    pub(crate) fn form(self, letter: Letter) -> Form
        ensures { result ≡ form_of letter self.values }
    {
        match letter {
            Letter::Entry => Form::Entry(self.entry()),
            Letter::Change => Form::Change(self.change()),
            Letter::Cancel => Form::Cancel(self.cancel()),
            Letter::MassCancel => Form::MassCancel(self.mass_cancel()),
            Letter::Closing => Form::Closing,
            Letter::Opening => Form::Opening(self.opening()),
        }
    }
}
