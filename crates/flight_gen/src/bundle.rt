ghost use Rattle.std.specs.Prelude.{◌≡◌, ◌≤◌, IfOk};
ghost use Rattle.flight_gen.specs.Generated.{generated};

use crate::program::push_program;
use crate::script::push_script;
use flight_value::Memory;
use std::alloc::Global;

/// The bundle of so many components, from 1 to 2,000.
pub fn generate(alloc: Global, count: u32) -> Result<Vec<u8>, Memory>
    requires least { 1 ≤ count }
    requires most { count ≤ 2000 }
    ensures { IfOk result (λ bytes. bytes.items ≡ generated count) }
{
    let mut out = String::new(alloc);
    push_program(&mut out, count)?;
    out.push_str("%%script\n")?;
    push_script(&mut out, count)?;
    Ok(out.into_bytes())
}
