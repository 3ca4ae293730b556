// What is proved of the model itself, apart from any kind.
ghost use Rattle.kinds.specs.History.{Coherent};

// Carries a theorem, and does nothing: that histories are histories again where the duties of a kind take them to be.
#[tactic(auto, using(crate::proofs::Histories::coherent))]
pub fn histories_cohere()
    ensures { Coherent }
{}
