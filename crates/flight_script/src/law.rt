ghost use Rattle.std.specs.Prelude.{◌≡◌, ℕ, List};
ghost use Rattle.flight_syntax.specs.declared.program.Declared.{Declared};
ghost use Rattle.flight_syntax.specs.declared.script.Script.{Script};
ghost use Rattle.flight_script.specs.declared.fault.ScriptFault.{ScriptFault};
ghost use Rattle.flight_script.specs.Script.{IsScriptOf, IsFaultOf};

/// A text has one script or one first fault, and never both.
pub fn one_script()
    ensures scripts { (text : List ℕ) (declared : List Declared) (s t : Script) → IsScriptOf text declared s → IsScriptOf text declared t → s ≡ t }
    ensures faults { (text : List ℕ) (declared : List Declared) (e f : ScriptFault) → IsFaultOf text declared e → IsFaultOf text declared f → e ≡ f }
    ensures apart { (text : List ℕ) (declared : List Declared) (s : Script) (e : ScriptFault) → IsScriptOf text declared s → ¬ IsFaultOf text declared e }
{}
