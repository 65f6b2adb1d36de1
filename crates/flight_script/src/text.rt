ghost use Rattle.std.specs.Prelude.{◌≡◌, ◌++◌, IfOk, IfErr};
ghost use Rattle.flight_script.specs.declared.fault.ScriptFault.TheVariants as fault;

use crate::fault::ScriptFault;
use flight_value::{Memory, Text};
use std::alloc::Global;

/// Two texts as one.
pub fn joined(alloc: Global, front: &str, rest: &str) -> Result<Text, Memory>
    ensures { IfOk result (λ t. t ≡ front.now ++ rest.now) }
{
    let mut text = String::from_str(alloc, front)?;
    text.push_str(rest)?;
    Text::from_string(text)
}

/// A position as a number. More positions than numbers are answered as want of memory.
pub fn number(position: usize) -> Result<u32, ScriptFault>
    ensures ok { IfOk result (λ n. n ≡ position) }
    ensures err { IfErr result (λ e. e ≡ fault.Memory) }
{
    match u32::try_from(position) {
        Ok(number) => Ok(number),
        Err(_) => Err(ScriptFault::Memory),
    }
}
