ghost use Rattle.std.specs.Prelude.{◌≡◌, ◌<◌, ◌^◌, ◌+◌, ◌∷◌, [], None, OnOk, IfOk};
ghost use Rattle.flight_value.specs.declared.graph.Atom.TheVariants as atom;
ghost use Rattle.flight_row.specs.declared.row.RowKind.TheVariants as row;
ghost use Rattle.flight_home.specs.Homes.{Homes};
ghost use Rattle.flight_meaning.specs.declared.place.Place.TheVariants as place;
ghost use Rattle.flight_value.specs.Graph.{IsValidAtom};
ghost use Rattle.flight_payload.specs.Written.{token_of, HasToken, IsWritableAtom};
ghost use Rattle.json.specs.Token.{key};
ghost use Rattle.flight_emit.specs.Sheet.{root, as_array, as_object, as_element};
ghost use Rattle.flight_emit.specs.Wrote.{opens, closes};
ghost use Rattle.flight_emit.specs.Log.{atom_row, entries_row, stage, Took, Put};

use flight_payload::{PayloadWriter, error_row, text_row};
use flight_render::What;
use flight_row::Row;
use flight_text::Ref;
use flight_value::{Atom, Key, List, Memory, Text};
use std::alloc::Global;

/// A task that is born, with the id of its row.
#[derive(Drop)]
pub struct Born {
    pub id: u32,
    pub what: What,
}

/// A row that is still to be written.
#[derive(Drop)]
pub enum Due {
    /// Of a node, or of what a promise holds.
    Value { id: u32, key: Key },
    /// Of the entries of a Map or of a Set.
    Entries { id: u32, key: Key },
}

/// What one answer wrote so far, and the payload that is being written.
#[derive(Drop)]
pub struct Work {
    /// The next id.
    pub next: u32,
    pub rows: Vec<Row>,
    pub born: Vec<Born>,
    pub due: Vec<Due>,
    pub out: PayloadWriter,
}

impl Work {
    /// Nothing so far.
    pub fn new(alloc: Global, next: u32) -> Work {
        Work {
            next,
            rows: Vec::new(alloc),
            born: Vec::new(alloc),
            due: Vec::new(alloc),
            out: PayloadWriter::new(alloc),
        }
    }

    /// Takes the next id. Where ids are used up, that is answered as want of memory.
    pub fn take_id(&mut self) -> Result<u32, Memory>
        ensures id { IfOk result (λ id. (id ≡ self.old.next) × (id < 2 ^ 31)) }
        ensures next { OnOk result (self.new ≡ record self.old { next = self.old.next + 1 }) }
    {
        let id = self.next;
        if id >= 1 << 31 {
            return Err(Memory::past_limit());
        }
        self.next = id + 1;
        Ok(id)
    }

    /// The row of a text that is too long to stand in another, by its id.
    pub fn add_text(&mut self, alloc: Global, text: &str) -> Result<u32, Memory>
        ensures id { IfOk result (λ id. (id ≡ self.old.next) × (id < 2 ^ 31)) }
        ensures took { OnOk result ((homes : Homes) → Took (atom_row None row.Text (atom.Text text.now)) (stage homes self.old) (stage homes self.new)) }
    {
        let id = self.take_id()?;
        self.rows.push(text_row(alloc, id, text)?)?;
        Ok(id)
    }

    /// The row of a failure, by its id.
    pub fn add_failure(&mut self, alloc: Global, digest: &str) -> Result<u32, Memory>
        ensures id { IfOk result (λ id. (id ≡ self.old.next) × (id < 2 ^ 31)) }
        ensures took { OnOk result ((homes : Homes) → Took (atom_row None row.Error (atom.Failed digest.now)) (stage homes self.old) (stage homes self.new)) }
    {
        let id = self.take_id()?;
        self.rows.push(error_row(alloc, id, digest)?)?;
        Ok(id)
    }

    /// The id of a row that is still to be written: of the entries of a Map or of a Set.
    pub fn add_entries(&mut self, key: Key) -> Result<u32, Memory>
        ensures id { IfOk result (λ id. (id ≡ self.old.next) × (id < 2 ^ 31)) }
        ensures took { OnOk result ((homes : Homes) → Took (entries_row key) (stage homes self.old) (stage homes self.new)) }
    {
        let id = self.take_id()?;
        self.due.push(Due::Entries { id, key })?;
        Ok(id)
    }

    /// Writes an atom into the row.
    pub fn put_atom(&mut self, atom: &Atom) -> Result<(), Memory>
        requires { HasToken atom.now }
        ensures put { OnOk result ((homes : Homes) → Put (token_of (place.Atom atom.now) ∷ []) (stage homes self.old) (stage homes self.new)) }
        ensures writable { OnOk result (IsValidAtom atom.now → IsWritableAtom atom.now) }
    {
        self.out.atom(atom)
    }

    /// Writes a text into the row.
    pub fn put_text(&mut self, text: &str) -> Result<(), Memory>
        ensures { OnOk result ((homes : Homes) → Put (token_of (place.Atom (atom.Text text.now)) ∷ []) (stage homes self.old) (stage homes self.new)) }
    {
        self.out.text(text)
    }

    /// Begins an array in the row.
    pub fn begin_array(&mut self) -> Result<(), Memory>
        ensures { OnOk result ((homes : Homes) → Put (opens as_array) (stage homes self.old) (stage homes self.new)) }
    {
        self.out.begin_array()
    }

    /// Ends an array or an element.
    pub fn end_array(&mut self) -> Result<(), Memory>
        ensures { OnOk result ((homes : Homes) → Put (closes as_array) (stage homes self.old) (stage homes self.new)) }
    {
        self.out.end_array()
    }

    /// Begins an object in the row.
    pub fn begin_object(&mut self) -> Result<(), Memory>
        ensures { OnOk result ((homes : Homes) → Put (opens as_object) (stage homes self.old) (stage homes self.new)) }
    {
        self.out.begin_object()
    }

    /// The name of the property that is written next.
    pub fn put_name(&mut self, name: &Text) -> Result<(), Memory>
        ensures { OnOk result ((homes : Homes) → Put (key name.now ∷ []) (stage homes self.old) (stage homes self.new)) }
    {
        self.out.name(name.as_str())
    }

    /// Ends an object.
    pub fn end_object(&mut self) -> Result<(), Memory>
        ensures { OnOk result ((homes : Homes) → Put (closes as_object) (stage homes self.old) (stage homes self.new)) }
    {
        self.out.end_object()
    }

    /// Begins an element in the row.
    pub fn begin_element(&mut self) -> Result<(), Memory>
        ensures { OnOk result ((homes : Homes) → Put (opens as_element) (stage homes self.old) (stage homes self.new)) }
    {
        self.out.begin_element()
    }

    /// Writes a reference to the value of a row, which may come later.
    pub fn put_lazy(&mut self, id: u32) -> Result<(), Memory>
        ensures { OnOk result ((homes : Homes) → Put (token_of (place.Lazy id) ∷ []) (stage homes self.old) (stage homes self.new)) }
    {
        self.out.lazy(id)
    }

    /// Writes the promise of a row.
    pub fn put_promise(&mut self, id: u32) -> Result<(), Memory>
        ensures { OnOk result ((homes : Homes) → Put (token_of (place.Promise id) ∷ []) (stage homes self.old) (stage homes self.new)) }
    {
        self.out.promise(id)
    }

    /// Writes the server reference of a row.
    pub fn put_action(&mut self, id: u32) -> Result<(), Memory>
        ensures { OnOk result ((homes : Homes) → Put (token_of (place.Action id) ∷ []) (stage homes self.old) (stage homes self.new)) }
    {
        self.out.action(id)
    }

    /// Writes a reference to a place.
    pub fn put_value(&mut self, at: &Ref) -> Result<(), Memory>
        ensures { OnOk result ((homes : Homes) → Put (token_of (place.Value at.now) ∷ []) (stage homes self.old) (stage homes self.new)) }
    {
        self.out.value(at)
    }

    /// Writes the token of a Map, whose entries stand in a row.
    pub fn put_map(&mut self, alloc: Global, id: u32) -> Result<(), Memory>
        ensures { OnOk result ((homes : Homes) → Put (token_of (place.Map (root id)) ∷ []) (stage homes self.old) (stage homes self.new)) }
    {
        self.out.map(&whole_row(alloc, id))
    }

    /// Writes the token of a Set, whose items stand in a row.
    pub fn put_set(&mut self, alloc: Global, id: u32) -> Result<(), Memory>
        ensures { OnOk result ((homes : Homes) → Put (token_of (place.Set (root id)) ∷ []) (stage homes self.old) (stage homes self.new)) }
    {
        self.out.set(&whole_row(alloc, id))
    }

    /// Writes a reference to a whole row.
    pub fn put_whole(&mut self, alloc: Global, id: u32) -> Result<(), Memory>
        ensures { OnOk result ((homes : Homes) → Put (token_of (place.Value (root id)) ∷ []) (stage homes self.old) (stage homes self.new)) }
    {
        self.out.value(&whole_row(alloc, id))
    }
}

/// A row, and no step from its root.
pub fn whole_row(alloc: Global, id: u32) -> Ref
    ensures { result ≡ root id }
{
    Ref {
        id,
        path: List::new(Vec::new(alloc)),
    }
}
