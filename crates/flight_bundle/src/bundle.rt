ghost use Rattle.std.specs.Prelude.{◌≡◌, ◌≤◌, if◌then◌else◌, IfOk, IfErr, length, option_map};
ghost use Rattle.std.specs.Str.{IsUtf8};
ghost use Rattle.flight_syntax.specs.Derives.{Derives};
ghost use Rattle.flight_syntax.specs.Script.{IsScript};
ghost use Rattle.flight_script.specs.Script.{IsScriptOf};
ghost use Rattle.flight_render.specs.Valid.{IsValidGround};
ghost use Rattle.flight_bundle.specs.Parts.{HasParts};
ghost use Rattle.flight_bundle.specs.Bundle.{most_bytes, IsParted, IsBundle, IsScriptFault, IsGroundFault, HasFault};

use crate::fault::BundleFault;
use crate::law::read_is_valid;
use crate::part::parts_of;
use flight_render::{Ground, Root};
use flight_resolve::{ParseFault, parse};
use flight_script::{ScriptFault, read_script};
use flight_syntax::Program;
use flight_value::List;
use std::alloc::Global;

/// The most bytes of a bundle.
const MOST_BYTES: usize = 1_048_576;

/// What is rendered, and the reply that came with it.
#[derive(Drop)]
pub struct Bundle {
    pub ground: Ground,
    pub reply: Option<List<u8>>,
}

/// The bundle that bytes are, with a reply just where one is wanted, or the first fault. The root is `App`.
pub fn read_bundle(alloc: Global, bytes: &[u8], reply: bool) -> Result<Bundle, BundleFault>
    ensures is { IfOk result (λ bundle. IsBundle bytes.now reply bundle.ground bundle.reply) }
    ensures valid { IfOk result (λ bundle. IsValidGround bundle.ground) }
    ensures fault { IfErr result (HasFault bytes.now reply) }
{
    if bytes.len() > MOST_BYTES {
        return Err(BundleFault::TooLong);
    }
    if let Err(error) = simdutf8::compat::from_utf8(bytes) {
        return Err(BundleFault::NotUtf8 {
            at: error.valid_up_to() as u32,
        });
    }
    let parts = parts_of(bytes);
    if parts.reply.is_some() != reply {
        return Err(misfit(reply));
    }
    let ground = ground_of(alloc, parts.program, parts.script)?;
    Ok(Bundle {
        ground,
        reply: kept(alloc, parts.reply)?,
    })
}

/// The fault where a reply is wanted and there is none, or the other way.
fn misfit(wanted: bool) -> BundleFault
    ensures { result ≡ if wanted then BundleFault.ReplyWanted else BundleFault.ReplyNotWanted }
{
    if wanted {
        BundleFault::ReplyWanted
    } else {
        BundleFault::ReplyNotWanted
    }
}

/// A reply of one's own.
fn kept(alloc: Global, reply: Option<&[u8]>) -> Result<Option<List<u8>>, BundleFault>
    ensures ok { IfOk result (λ own. own ≡ option_map (λ r. r.now) reply.entry) }
    ensures err { IfErr result (λ e. e ≡ BundleFault.Memory) }
{
    let Some(bytes) = reply else {
        return Ok(None);
    };
    match Vec::from_slice(alloc, bytes) {
        Ok(own) => Ok(Some(List::new(own))),
        Err(_) => Err(BundleFault::Memory),
    }
}

/// The ground of a program and its script.
fn ground_of(alloc: Global, program: &[u8], script: &[u8]) -> Result<Ground, BundleFault>
    requires program { IsUtf8 program.now }
    requires script { IsUtf8 script.now }
    requires within { length program.now ≤ most_bytes }
    ensures derives { IfOk result (λ ground. Derives program.now ground.program.declared) }
    ensures script { IfOk result (λ ground. IsScriptOf script.now ground.program.declared ground.script) }
    ensures first { IfOk result (λ ground. ground.root ≡ Root.App) }
    ensures valid { IfOk result IsValidGround }
    ensures fault { IfErr result (IsGroundFault program.now script.now) }
{
    read_is_valid();
    match parse(alloc, program) {
        Ok(program) => with_script(alloc, program, script),
        Err(ParseFault::Memory) => Err(BundleFault::Memory),
        Err(fault) => Err(BundleFault::Program(fault)),
    }
}

/// The ground of a program with its script.
fn with_script(alloc: Global, program: Program, script: &[u8]) -> Result<Ground, BundleFault>
    requires script { IsUtf8 script.now }
    ensures program { IfOk result (λ ground. ground.program ≡ program) }
    ensures script { IfOk result (λ ground. IsScriptOf script.now program.declared ground.script) }
    ensures form { IfOk result (λ ground. IsScript ground.script) }
    ensures first { IfOk result (λ ground. ground.root ≡ Root.App) }
    ensures fault { IfErr result (IsScriptFault script.now program.declared) }
{
    match read_script(alloc, script, &program) {
        Ok(script) => Ok(Ground {
            program,
            script,
            root: Root::App,
        }),
        Err(ScriptFault::Memory) => Err(BundleFault::Memory),
        Err(fault) => Err(BundleFault::Script(fault)),
    }
}
