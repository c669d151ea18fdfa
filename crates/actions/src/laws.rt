//! What the definitions promise of all texts, values and random draws. Nothing here runs.

ghost use Rattle.std.specs.Prelude.{◌≡◌, ◌≤◌, ◌↔◌, ℕ, Bool, Option, List, length};
ghost use Rattle.actions.specs.Value.{TermValue};
ghost use Rattle.actions.specs.Grammar.{SpellsActions};
ghost use Rattle.actions.specs.SettingGrammar.{SpellsSetting};
ghost use Rattle.actions.specs.Canonical.{canonical};
ghost use Rattle.actions.specs.Choice.{choice, IsFirstTriggered};

/// A text spells at most one list of terms.
pub fn text_spells_one_value()
    ensures { (text : List ℕ) (ts us : List TermValue)
        → SpellsActions text ts → SpellsActions text us → ts ≡ us }
{}

/// A value that some text spells is spelled by its canonical text too, and by no shorter text.
pub fn canonical_text_spells_same_value()
    ensures { (text : List ℕ) (ts : List TermValue) → SpellsActions text ts
        → SpellsActions (canonical ts) ts × (length (canonical ts) ≤ length text) }
{}

/// Two values that texts spell are equal where their canonical texts are.
pub fn canonical_text_fixes_value()
    ensures { (text other : List ℕ) (ts us : List TermValue)
        → SpellsActions text ts → SpellsActions other us → canonical ts ≡ canonical us → ts ≡ us }
{}

/// The choice is the first term that triggers, and no other answer is.
pub fn choice_is_first_triggered()
    ensures { (ts : List TermValue) (words : List ℕ) (may : ℕ → Bool) (chosen : Option ℕ)
        → (chosen ≡ choice ts words may) ↔ IsFirstTriggered ts words may chosen }
{}

/// A text sets at most one list of points.
pub fn setting_spells_one_value()
    ensures { (text : List ℕ) (points others : List (List ℕ × List TermValue))
        → SpellsSetting text points → SpellsSetting text others → points ≡ others }
{}
