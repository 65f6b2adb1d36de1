ghost use Rattle.std.specs.Prelude.{◌≡◌, ◌≤◌, ◌<◌, IfOk, IfErr, OnOk, IsTrue, length, take, drop};
ghost use Rattle.std.specs.Ordering.{nat_cmp};
ghost use Rattle.std.specs.Cmp.Lexicographic.{slice_cmp};
ghost use Rattle.serde_json.specs.Data.{put, no_members};
ghost use Rattle.flight_text.specs.Ordered.{OrderedMembers};
ghost use Rattle.flight_place.specs.Parsed.{data_of, members_data, gathered_data, AreBelow, IsBelowFirst, IsFirst, with_value};

use crate::parsed::Parsed;
use std::alloc::{AllocError, Global};
use std::cmp::Ordering;
use std::collections::BTreeMap;
use std::mem;

/// More members than these, in no order, are kept in a map.
const FEW: usize = 16;

/// The members of an object so far, by the bytes of their names.
#[derive(Drop)]
pub enum Gathered<'a> {
    /// Few, or such as came in order.
    Listed(Vec<(&'a str, Parsed<'a>)>),
    Mapped(BTreeMap<&'a str, Parsed<'a>>),
}

impl<'a> Gathered<'a> {
    pub fn new(alloc: Global) -> Gathered<'a>
        ensures { gathered_data result ≡ no_members }
    {
        Gathered::Listed(Vec::new(alloc))
    }

    /// Puts a member in, whose value takes the place of an earlier one of its name.
    #[inline(always)]
    pub fn put(&mut self, alloc: Global, name: &'a str, value: Parsed<'a>) -> Result<(), AllocError>
        requires { OrderedMembers (gathered_data self.old) }
        ensures { OnOk result (gathered_data self.new ≡ put name.now (data_of value.entry) (gathered_data self.old)) }
    {
        if let Gathered::Listed(list) = self {
            if is_behind(list.as_slice(), name) {
                list.reserve(1)?;
                list.push_reserved((name, value));
                return Ok(());
            }
        }
        self.put_among(alloc, name, value)
    }

    /// The same of a member that is not behind all others.
    #[cold]
    #[inline(never)]
    fn put_among(
        &mut self,
        alloc: Global,
        name: &'a str,
        value: Parsed<'a>,
    ) -> Result<(), AllocError>
        requires { OrderedMembers (gathered_data self.old) }
        ensures { OnOk result (gathered_data self.new ≡ put name.now (data_of value.entry) (gathered_data self.old)) }
    {
        if self.needs_map(name) {
            self.make_map(alloc)?;
        }
        match self {
            Gathered::Listed(list) => insert(list, name, value),
            Gathered::Mapped(map) => insert_in_map(map, name, value),
        }
    }

    /// Whether many members would have to be searched one by one for a name.
    fn needs_map(&self, name: &str) -> bool
        requires { OrderedMembers (gathered_data self.now) }
    {
        match self {
            Gathered::Listed(list) => list.len() > FEW && !is_behind(list.as_slice(), name),
            Gathered::Mapped(_) => false,
        }
    }

    /// Moves the members to a map.
    fn make_map(&mut self, alloc: Global) -> Result<(), AllocError>
        requires { OrderedMembers (gathered_data self.old) }
        ensures { OnOk result (gathered_data self.new ≡ gathered_data self.old) }
    {
        *self = match mem::replace(self, Gathered::new(alloc)) {
            Gathered::Listed(list) => Gathered::Mapped(mapped(alloc, list)?),
            Gathered::Mapped(map) => Gathered::Mapped(map),
        };
        Ok(())
    }

    #[inline(always)]
    pub fn into_list(self, alloc: Global) -> Result<Vec<(&'a str, Parsed<'a>)>, AllocError>
        ensures { IfOk result (λ list. members_data list.items ≡ gathered_data self.entry) }
    {
        match self {
            Gathered::Listed(list) => Ok(list),
            Gathered::Mapped(map) => listed(alloc, map),
        }
    }
}

/// Whether a name is behind all these.
fn is_behind(list: &[(&str, Parsed<'_>)], name: &str) -> bool
    requires { OrderedMembers (members_data list.now) }
    ensures { IsTrue result → AreBelow name.now (members_data list.now) }
{
    let end = list.len();
    if end == 0 {
        return true;
    }
    matches!(order(name, list[end - 1].0), Ordering::Greater)
}

/// Puts a member where it belongs.
fn insert<'a>(
    list: &mut Vec<(&'a str, Parsed<'a>)>,
    name: &'a str,
    value: Parsed<'a>,
) -> Result<(), AllocError>
    requires { OrderedMembers (members_data list.old.items) }
    ensures { OnOk result (members_data list.new.items ≡ put name.now (data_of value.entry) (members_data list.old.items)) }
{
    match position(list.as_slice(), name) {
        Ok(at) => {
            replace(list, at, value);
            Ok(())
        }
        Err(at) => {
            list.insert(at, (name, value))?;
            Ok(())
        }
    }
}

/// Where a name stands in a list, or where it belongs. It is looked for from the end, since names often come nearly in
/// order.
fn position(list: &[(&str, Parsed<'_>)], name: &str) -> Result<usize, usize>
    requires { OrderedMembers (members_data list.now) }
    ensures stands { IfOk result (λ at. (at < length list.now) × AreBelow name.now (members_data (take at list.now)) × IsFirst name.now (members_data (drop at list.now))) }
    ensures belongs { IfErr result (λ at. (at ≤ length list.now) × AreBelow name.now (members_data (take at list.now)) × IsBelowFirst name.now (members_data (drop at list.now))) }
{
    let mut end = list.len();
    'members: while end > 0 {
        match order(name, list[end - 1].0) {
            Ordering::Less => end -= 1,
            Ordering::Equal => return Ok(end - 1),
            Ordering::Greater => return Err(end),
        }
    }
    Err(0)
}

/// How two names stand by their bytes. Names are short, and most differ in one of the first bytes.
fn order(name: &str, other: &str) -> Ordering
    ensures { result ≡ slice_cmp nat_cmp name.now other.now }
{
    let a = name.as_bytes();
    let b = other.as_bytes();
    for at in 0..a.len().min(b.len()) {
        if a[at] != b[at] {
            return a[at].cmp(&b[at]);
        }
    }
    name.cmp(other)
}

/// Gives a member another value.
fn replace<'a>(list: &mut Vec<(&'a str, Parsed<'a>)>, at: usize, value: Parsed<'a>)
    requires { at < length list.old.items }
    ensures { members_data list.new.items ≡ with_value at (data_of value.entry) (members_data list.old.items) }
{
    list[at].1 = value;
}

/// Puts a member in a map.
fn insert_in_map<'a>(
    map: &mut BTreeMap<&'a str, Parsed<'a>>,
    name: &'a str,
    value: Parsed<'a>,
) -> Result<(), AllocError>
    ensures { OnOk result (members_data map.new.entries ≡ put name.now (data_of value.entry) (members_data map.old.entries)) }
{
    drop(map.insert(name, value)?);
    Ok(())
}

/// A list's members in a map.
fn mapped<'a>(
    alloc: Global,
    list: Vec<(&'a str, Parsed<'a>)>,
) -> Result<BTreeMap<&'a str, Parsed<'a>>, AllocError>
    requires { OrderedMembers (members_data list.items) }
    ensures { IfOk result (λ m. members_data m.entries ≡ members_data list.entry.items) }
{
    let mut map = BTreeMap::new(alloc);
    for (name, value) in list {
        drop(map.insert(name, value)?);
    }
    Ok(map)
}

/// A map's members in a list.
fn listed<'a>(
    alloc: Global,
    map: BTreeMap<&'a str, Parsed<'a>>,
) -> Result<Vec<(&'a str, Parsed<'a>)>, AllocError>
    ensures { IfOk result (λ list. list.items ≡ map.entry.entries) }
{
    let mut list = Vec::with_capacity(alloc, map.len())?;
    for member in map {
        list.push(member)?;
    }
    Ok(list)
}
