ghost use Rattle.std.specs.Prelude.{◌≡◌, ◌≢◌, ℕ, Bool, List, Option};
ghost use Rattle.flight_syntax.specs.declared.program.Declared.{Declared};
ghost use Rattle.flight_syntax.specs.declared.script.Script.{Script};
ghost use Rattle.flight_syntax.specs.Derives.{Derives};
ghost use Rattle.flight_syntax.specs.Script.{IsScript};
ghost use Rattle.flight_script.specs.Script.{IsScriptOf};
ghost use Rattle.flight_render.specs.declared.root.Root.TheVariants.{App};
ghost use Rattle.flight_render.specs.declared.root.Ground.{Ground};
ghost use Rattle.flight_render.specs.Valid.{IsValidGround};
ghost use Rattle.flight_bundle.specs.declared.fault.BundleFault.{BundleFault};
ghost use Rattle.flight_bundle.specs.declared.fault.BundleFault.TheVariants as fault;
ghost use Rattle.flight_bundle.specs.Bundle.{IsBundle, HasFault};

use flight_grammar::one_outcome;
use flight_script::one_script;

/// What is read as a program, with a script that is read for it, is a valid ground to render.
pub fn read_is_valid()
    ensures { (text script_text : List ℕ) (declared : List Declared) (script : Script) → Derives text declared → IsScriptOf script_text declared script → IsScript script → IsValidGround (record { program = record { declared = declared }; script = script; root = App }) }
{}

/// Bytes are a bundle or have one first fault, and never both.
pub fn one_bundle()
    ensures faults { (bytes : List ℕ) (wanted : Bool) (f g : BundleFault) → f ≢ fault.Memory → g ≢ fault.Memory → HasFault bytes wanted f → HasFault bytes wanted g → f ≡ g }
    ensures apart { (bytes : List ℕ) (wanted : Bool) (g : Ground) (reply : Option (List ℕ)) (f : BundleFault) → f ≢ fault.Memory → IsBundle bytes wanted g reply → ¬ (HasFault bytes wanted f) }
{
    one_outcome();
    one_script();
}
