//! What holds of every answer. Nothing here looks at one.

ghost use Rattle.answers.specs.Laws.{FaultsAreCoded};

/// The text of a node's fault is `N`, the number of its code, a space, and its cause: the two members of
/// a refusal's object say what its line says.
pub fn faults_are_coded()
    ensures { FaultsAreCoded }
{}
