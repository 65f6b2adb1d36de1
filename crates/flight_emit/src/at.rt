ghost use Rattle.std.specs.Prelude.{◌≡◌, IfOk, IsTrue};
ghost use Rattle.flight_text.specs.Mark.{IsPlace};
ghost use Rattle.flight_text.specs.Reference.{IsName};
ghost use Rattle.flight_emit.specs.At.{step_name, ref_at};
ghost use Rattle.flight_emit.specs.Sheet.{below};

use flight_text::Ref;
use flight_value::{List, Memory, Text};
use std::alloc::Global;

/// A step from a composite to a part of it.
#[derive(Clone, Copy)]
pub enum Step<'a> {
    /// To an item of an array.
    Index(usize),
    /// To a property.
    Name(&'a Text),
    /// To the tag of an element.
    Type,
    /// To the properties of an element.
    Props,
}

/// Where a value is written.
#[derive(Clone, Copy)]
pub enum At<'a> {
    /// At the root of a row.
    Root { id: u32 },
    /// In the composite that a reference names.
    Part { of: &'a Ref, step: Step<'a> },
}

impl<'a> Step<'a> {
    /// Its name.
    fn text(self, alloc: Global) -> Result<Text, Memory>
        ensures { IfOk result (λ t. t ≡ step_name self.entry) }
    {
        match self {
            Step::Index(index) => Text::from_string(format!(in alloc; "{index}")?),
            Step::Name(name) => Ok(name.clone()?),
            Step::Type => Text::new(alloc, "type"),
            Step::Props => Text::new(alloc, "props"),
        }
    }
}

impl<'a> At<'a> {
    /// The reference that names it.
    pub fn reference(self, alloc: Global) -> Result<Ref, Memory>
        ensures { IfOk result (λ r. r ≡ ref_at self.entry) }
    {
        match self {
            At::Root { id } => Ok(Ref {
                id,
                path: List::new(Vec::new(alloc)),
            }),
            At::Part { of, step } => below(alloc, of, step.text(alloc)?),
        }
    }
}

/// The reference that one more step names.
fn below(alloc: Global, of: &Ref, name: Text) -> Result<Ref, Memory>
    ensures { IfOk result (λ r. r ≡ below of.now name) }
{
    let mut path = copy_path(alloc, of.path.as_slice())?;
    path.push(name)?;
    Ok(Ref {
        id: of.id,
        path: List::new(path),
    })
}

/// Whether values may stand in place under a reference: it has a spelling, of 48 bytes at most (this project's limit).
pub fn fits(at: &Ref) -> bool
    ensures { IsTrue result → IsPlace at.now }
{
    if at.id >= 1 << 31 || !at.path.as_slice().iter().all(|name| has_no_colon(name)) {
        return false;
    }
    spelled(at) <= LONGEST_REFERENCE
}

/// How many bytes a reference in place has at most.
const LONGEST_REFERENCE: usize = 48;

/// Whether a name may stand in a reference.
fn has_no_colon(name: &Text) -> bool
    ensures { IsTrue result → IsName name.now }
{
    !name.as_str().as_bytes().contains(&b':')
}

/// How many bytes the digits of an id have in hexadecimal.
fn digits(id: u32) -> usize {
    match id {
        0..=0xf => 1,
        0x10..=0xff => 2,
        0x100..=0xfff => 3,
        0x1000..=0xffff => 4,
        0x1_0000..=0xf_ffff => 5,
        0x10_0000..=0xff_ffff => 6,
        0x100_0000..=0xfff_ffff => 7,
        _ => 8,
    }
}

/// How many bytes a reference has, as the JSON spells it: a dollar, its id, and a colon before each name.
fn spelled(at: &Ref) -> usize {
    let mut len = digits(at.id).saturating_add(1);
    for name in at.path.as_slice() {
        len = len.saturating_add(1).saturating_add(name.as_str().len());
    }
    len
}

/// An equal reference.
pub fn copy_ref(alloc: Global, at: &Ref) -> Result<Ref, Memory>
    ensures { IfOk result (λ r. r ≡ at.now) }
{
    Ok(Ref {
        id: at.id,
        path: List::new(copy_path(alloc, at.path.as_slice())?),
    })
}

/// An equal path.
fn copy_path(alloc: Global, path: &[Text]) -> Result<Vec<Text>, Memory>
    ensures { IfOk result (λ v. v.items ≡ path.now) }
{
    let mut copy = Vec::new(alloc);
    for step in path {
        copy.push(step.clone()?)?;
    }
    Ok(copy)
}
