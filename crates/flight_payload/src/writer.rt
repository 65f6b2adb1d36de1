ghost use Rattle.std.specs.Prelude.{◌≡◌, ◌++◌, ◌∷◌, ◌<◌, ◌^◌, [], length, OnOk, IfOk};
ghost use Rattle.json.specs.Lex.{tokens};
ghost use Rattle.json.specs.Print.{print, token_text, IsPrintable};
ghost use Rattle.json.specs.Reads.{token_of as json_token_of};
ghost use Rattle.json.specs.Token.{begin_array, end_array, begin_object, end_object, key, string};
ghost use Rattle.flight_value.specs.Graph.{IsValidAtom};
ghost use Rattle.flight_value.specs.declared.graph.Atom.TheVariants as value;
ghost use Rattle.flight_text.specs.declared.mark.Mark.TheVariants as mark;
ghost use Rattle.flight_text.specs.Hex.{hex_of};
ghost use Rattle.flight_text.specs.Mark.{reference_of};
ghost use Rattle.flight_meaning.specs.declared.place.Place.TheVariants as place;
ghost use Rattle.flight_payload.specs.Written.{token_of, mark_token, spelled, HasToken, IsWritableAtom};
ghost use Rattle.flight_payload.specs.Line.{IsLineToken};
ghost use Rattle.flight_payload.specs.Rows.{IsRow, HasWritten};

use crate::json_text::{JsonText, quoted_len};
use crate::spelling::{spell_big, spell_id, spell_place, spell_text, word};
use flight_row::{Row, RowKind};
use flight_text::Ref;
use flight_value::{Atom, List, Memory, Text};
use json::Token;
use std::alloc::Global;
use std::marker::Model;

/// The payload of a row on its way, which contracts see as the JSON tokens that were written. They stand in one buffer, as
/// text.
///
/// The calls follow the value: an atom or a reference is one call; a composite is begun, then its slots are written in
/// order, and then it is ended. The names of an object ascend by their bytes. Then the row is taken, and the writer serves
/// for the next one.
///
/// What would make the payload longer than a row's may be is answered as want of memory. Such an answer may leave a part
/// written, which [`PayloadWriter::clear`] takes off.
#[derive(Drop)]
pub struct PayloadWriter {
    out: JsonText,
    /// The string that comes next, where it has to be spelled first.
    spelled: String,
    alloc: Global,
}

impl Model for PayloadWriter {
    ghost use Rattle.std.specs.Prelude.{List};
    ghost use Rattle.json.specs.Token.{Token, tokens_code};

    ghost Value = { List Token };

    ghost coded = { tokens_code };

    ghost view = { λ w. w.out };
}

impl PayloadWriter {
    /// Nothing is written yet.
    pub fn new(alloc: Global) -> PayloadWriter
        ensures { result ≡ [] }
    {
        PayloadWriter {
            out: JsonText::new(alloc),
            spelled: String::new(alloc),
            alloc,
        }
    }

    /// How many bytes what was written has.
    pub fn len(&self) -> usize
        ensures { result ≡ length (print self.now) }
    {
        self.out.len()
    }

    /// Takes off what was written.
    pub fn clear(&mut self)
        ensures { self.new ≡ [] }
    {
        self.out = JsonText::new(self.alloc);
    }

    /// Writes an atom. A client module, a failure and what is pending have rows of their own.
    pub fn atom(&mut self, atom: &Atom) -> Result<(), Memory>
        requires { HasToken atom.now }
        ensures written { OnOk result (self.new ≡ self.old ++ token_of (place.Atom atom.now) ∷ []) }
        ensures writable { OnOk result (IsValidAtom atom.now → IsWritableAtom atom.now) }
    {
        match atom {
            Atom::Null => self.token(Token::Null),
            Atom::Undefined => self.string("$undefined"),
            Atom::Bool(value) => self.token(Token::Bool(*value)),
            Atom::Whole(number) => self.whole(*number),
            Atom::Big(number) => self.big(number.get()),
            Atom::Text(text) => self.text(text.as_str()),
            Atom::Date(date) => self.signed("$D", date.as_str()),
            Atom::Symbol(name) => self.signed("$S", name.as_str()),
            Atom::Constant(constant) => self.string(word(*constant)),
            Atom::Import(_) => unreachable!(),
            Atom::Failed(_) => unreachable!(),
            Atom::Pending => unreachable!(),
        }
    }

    /// Writes a whole number, from −(2^53−1) to 2^53−1 where it is to be read again.
    #[inline(always)]
    pub fn whole(&mut self, whole: i64) -> Result<(), Memory>
        ensures { OnOk result (self.new ≡ self.old ++ token_of (place.Atom (value.Whole whole)) ∷ []) }
    {
        let mut digits = itoa::Buffer::new();
        self.out.token(Token::Number(digits.format(whole)))
    }

    /// Writes a text.
    pub fn text(&mut self, text: &str) -> Result<(), Memory>
        ensures { OnOk result (self.new ≡ self.old ++ token_of (place.Atom (value.Text text.now)) ∷ []) }
    {
        if text.as_bytes().first() == Some(&b'$') {
            self.signed("$", text)
        } else {
            self.string(text)
        }
    }

    /// Writes a reference to the value of a row, which may come later.
    pub fn lazy(&mut self, id: u32) -> Result<(), Memory>
        ensures { OnOk result (self.new ≡ self.old ++ token_of (place.Lazy id) ∷ []) }
    {
        self.identified("$L", id)
    }

    /// Writes a reference to the promise of a row's value.
    pub fn promise(&mut self, id: u32) -> Result<(), Memory>
        ensures { OnOk result (self.new ≡ self.old ++ token_of (place.Promise id) ∷ []) }
    {
        self.identified("$@", id)
    }

    /// Writes a reference to the server reference that a row describes.
    pub fn action(&mut self, id: u32) -> Result<(), Memory>
        ensures { OnOk result (self.new ≡ self.old ++ token_of (place.Action id) ∷ []) }
    {
        self.identified("$F", id)
    }

    /// Writes a reference to the value at a place.
    pub fn value(&mut self, at: &Ref) -> Result<(), Memory>
        ensures { OnOk result (self.new ≡ self.old ++ token_of (place.Value at.now) ∷ []) }
    {
        self.placed("$", at)
    }

    /// Writes a Map, whose entries stand at a place.
    pub fn map(&mut self, at: &Ref) -> Result<(), Memory>
        ensures { OnOk result (self.new ≡ self.old ++ token_of (place.Map at.now) ∷ []) }
    {
        self.placed("$Q", at)
    }

    /// Writes a Set, whose items stand at a place.
    pub fn set(&mut self, at: &Ref) -> Result<(), Memory>
        ensures { OnOk result (self.new ≡ self.old ++ token_of (place.Set at.now) ∷ []) }
    {
        self.placed("$W", at)
    }

    /// Begins an array.
    pub fn begin_array(&mut self) -> Result<(), Memory>
        ensures { OnOk result (self.new ≡ self.old ++ begin_array ∷ []) }
    {
        self.token(Token::BeginArray)
    }

    /// Begins an element, whose slots are its tag, its key and its props.
    pub fn begin_element(&mut self) -> Result<(), Memory>
        ensures { OnOk result (self.new ≡ self.old ++ begin_array ∷ mark_token ∷ []) }
    {
        self.token(Token::BeginArray)?;
        self.string("$")
    }

    /// Ends an array or an element.
    pub fn end_array(&mut self) -> Result<(), Memory>
        ensures { OnOk result (self.new ≡ self.old ++ end_array ∷ []) }
    {
        self.token(Token::EndArray)
    }

    /// Begins an object.
    pub fn begin_object(&mut self) -> Result<(), Memory>
        ensures { OnOk result (self.new ≡ self.old ++ begin_object ∷ []) }
    {
        self.token(Token::BeginObject)
    }

    /// Writes the name of a property, whose value comes next.
    pub fn name(&mut self, name: &str) -> Result<(), Memory>
        ensures { OnOk result (self.new ≡ self.old ++ key name.now ∷ []) }
    {
        self.token(Token::Key(name))
    }

    /// Ends an object.
    pub fn end_object(&mut self) -> Result<(), Memory>
        ensures { OnOk result (self.new ≡ self.old ++ end_object ∷ []) }
    {
        self.token(Token::EndObject)
    }

    /// The model row of what was written. Nothing is written any more then.
    pub fn take_model_row(&mut self, id: u32) -> Result<Row, Memory>
        requires { id < 2 ^ 31 }
        ensures empty { self.new ≡ [] }
        ensures row { IfOk result (IsRow id RowKind.Model) }
        ensures written { IfOk result (HasWritten self.old) }
    {
        self.take_row(id, RowKind::Model)
    }

    /// The row that closes a stream with what was written. Nothing is written any more then.
    pub fn take_close_row(&mut self, id: u32) -> Result<Row, Memory>
        requires { id < 2 ^ 31 }
        ensures empty { self.new ≡ [] }
        ensures row { IfOk result (IsRow id RowKind.Close) }
        ensures written { IfOk result (HasWritten self.old) }
    {
        self.take_row(id, RowKind::Close)
    }

    /// The text of what was written, which is JSON where a value was. Nothing is written any more then.
    pub fn take_text(&mut self) -> Result<Text, Memory>
        ensures empty { self.new ≡ [] }
        ensures text { IfOk result (λ text. text ≡ print self.old) }
        ensures tokens { IfOk result (λ text. tokens text ≡ self.old) }
    {
        let text = self.out.take(self.alloc)?;
        // SAFETY: it is UTF-8, as `take` says.
        Text::from_string(unsafe { String::from_utf8_unchecked(text) })
    }

    /// How many bytes a reference to the value at a place is written with, its quotation marks counted. Nothing is written.
    pub fn value_len(&mut self, at: &Ref) -> Result<usize, Memory>
        ensures same { self.new ≡ self.old }
        ensures len { IfOk result (λ n. n ≡ length (token_text (token_of (place.Value at.now)))) }
    {
        spell_place(&mut self.spelled, "$", at)?;
        quoted_len(self.spelled.as_str())
    }

    /// A row of what was written.
    pub(crate) fn take_row(&mut self, id: u32, kind: RowKind) -> Result<Row, Memory>
        requires { id < 2 ^ 31 }
        ensures empty { self.new ≡ [] }
        ensures row { IfOk result (IsRow id kind) }
        ensures tokens { IfOk result (λ row. tokens row.payload ≡ self.old) }
    {
        let payload = self.out.take(self.alloc)?;
        Ok(Row {
            id,
            kind,
            payload: List::new(payload),
        })
    }

    /// Writes a BigInt.
    fn big(&mut self, number: i128) -> Result<(), Memory>
        ensures { OnOk result (self.new ≡ self.old ++ spelled (mark.Big number) ∷ []) }
    {
        spell_big(&mut self.spelled, number)?;
        self.out.token(Token::String(self.spelled.as_str()))
    }

    /// Writes a string of a sign and a text.
    fn signed(&mut self, sign: &str, text: &str) -> Result<(), Memory>
        ensures { OnOk result (self.new ≡ self.old ++ string (sign.now ++ text.now) ∷ []) }
    {
        spell_text(&mut self.spelled, sign, text)?;
        self.out.token(Token::String(self.spelled.as_str()))
    }

    /// Writes a string of a sign and an id.
    fn identified(&mut self, sign: &str, id: u32) -> Result<(), Memory>
        ensures { OnOk result (self.new ≡ self.old ++ string (sign.now ++ hex_of id) ∷ []) }
    {
        spell_id(&mut self.spelled, sign, id)?;
        self.out.token(Token::String(self.spelled.as_str()))
    }

    /// Writes a string of a sign and a place.
    fn placed(&mut self, sign: &str, at: &Ref) -> Result<(), Memory>
        ensures { OnOk result (self.new ≡ self.old ++ string (sign.now ++ reference_of at.now) ∷ []) }
    {
        spell_place(&mut self.spelled, sign, at)?;
        self.out.token(Token::String(self.spelled.as_str()))
    }

    /// Writes a string as it is.
    #[inline(always)]
    pub(crate) fn string(&mut self, text: &str) -> Result<(), Memory>
        ensures { OnOk result (self.new ≡ self.old ++ string text.now ∷ []) }
    {
        self.token(Token::String(text))
    }

    /// Writes a token.
    #[inline(always)]
    fn token(&mut self, token: Token<'_>) -> Result<(), Memory>
        requires printable { IsPrintable (json_token_of token) }
        requires line { IsLineToken (json_token_of token) }
        ensures { OnOk result (self.new ≡ self.old ++ json_token_of token.entry ∷ []) }
    {
        self.out.token(token)
    }
}
