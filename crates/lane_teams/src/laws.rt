// What holds of the answers of every team.
ghost use Rattle.std.specs.Prelude.{◌≡◌, ℕ, List, Err};
ghost use Rattle.band_blocks.specs.declared.fault.LoadFault.{LoadFault};
ghost use Rattle.lane_teams.specs.Refusals.{Answer, first_refusal, IsFirstRefusal};

/// A refusal that is told for several answers is that of one of them before which none is a refusal. There is one such
/// refusal and no other, and it is told.
pub fn one_refusal_is_first()
    ensures found { (answers : List Answer) → (fault : LoadFault) → first_refusal answers ≡ Err fault → (k : ℕ) ×
        IsFirstRefusal answers k fault }
    ensures only { (answers : List Answer) → (k l : ℕ) → (fault other : LoadFault) → IsFirstRefusal answers k fault →
        IsFirstRefusal answers l other → (k ≡ l) × (fault ≡ other) }
    ensures told { (answers : List Answer) → (k : ℕ) → (fault : LoadFault) → IsFirstRefusal answers k fault →
        first_refusal answers ≡ Err fault }
{}
