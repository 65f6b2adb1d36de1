ghost use Rattle.std.specs.Prelude.{◌≡◌, ◌<◌, ◌==◌, ◌||◌, ℕ, Some, false, map, length, option_map, slice_get, slice_set, IfOk};
ghost use Rattle.std.specs.List.{list_any};
ghost use Rattle.flight_syntax.specs.Form.{is_scripted};

use flight_syntax::{Script, Seen};
use flight_value::{List, Memory};
use std::alloc::Global;

/// No source.
pub fn nothing(alloc: Global, script: &Script) -> Result<Seen, Memory>
    ensures { IfOk result (λ seen. seen.settled ≡ map (λ s. false) script.now.sources) }
{
    Ok(Seen {
        settled: List::new(unmarked(alloc, script.sources.as_slice())?),
    })
}

/// Just the sources that some settler settles.
pub fn scripted(alloc: Global, script: &Script) -> Result<Seen, Memory>
    ensures each { IfOk result (λ seen. length seen.settled ≡ length script.now.sources) }
    ensures is { IfOk result (λ seen. (i : ℕ) → i < length script.now.sources → slice_get seen.settled i ≡ Some (is_scripted script.now i)) }
{
    let mut settled = unmarked(alloc, script.sources.as_slice())?;
    mark_settlers(&mut settled, script.settlers.as_slice());
    Ok(Seen {
        settled: List::new(settled),
    })
}

/// For each item, that it is not marked.
fn unmarked<T>(alloc: Global, items: &[T]) -> Result<Vec<bool>, Memory>
    ensures { IfOk result (λ out. out.items ≡ map (λ x. false) items.now) }
{
    let mut out = Vec::with_capacity(alloc, items.len())?;
    for _item in items {
        out.push(false)?;
    }
    Ok(out)
}

/// Marks what each settler settles.
fn mark_settlers(settled: &mut Vec<bool>, settlers: &[List<u32>])
    ensures len { length settled.new.items ≡ length settled.old.items }
    ensures is { (i : ℕ) → slice_get settled.new.items i ≡ option_map (λ b. b || list_any (λ own. list_any (λ n. n == i) own) settlers.now) (slice_get settled.old.items i) }
{
    for own in settlers {
        mark_all(settled, own.as_slice());
    }
}

/// Marks these.
fn mark_all(settled: &mut Vec<bool>, numbers: &[u32])
    ensures len { length settled.new.items ≡ length settled.old.items }
    ensures is { (i : ℕ) → slice_get settled.new.items i ≡ option_map (λ b. b || list_any (λ n. n == i) numbers.now) (slice_get settled.old.items i) }
{
    for number in numbers {
        mark_one(settled, *number as usize);
    }
}

/// Marks one, where it is there.
fn mark_one(settled: &mut Vec<bool>, number: usize)
    ensures len { length settled.new.items ≡ length settled.old.items }
    ensures is { (i : ℕ) → slice_get settled.new.items i ≡ option_map (λ b. b || (number == i)) (slice_get settled.old.items i) }
{
    if number < settled.len() {
        settled[number] = true;
    }
}
