//! Worked trees, which the checker computes.

ghost use Rattle.std.specs.Prelude.{◌≡◌, [], ◌∷◌, Some, codes, option_map};
ghost use Rattle.soy_base.specs.declared.code.Code.TheVariants as code;
ghost use Rattle.soy_rules.specs.Demands.{CheckFault, check_fault, in_file};
ghost use Rattle.alike_files.specs.AllAlike.{AllAlike};
ghost use Rattle.alike_files.specs.WithoutPositions.{fault_without_position};
ghost use Rattle.alike_files.specs.WorkedTrees.{printing};

/// Trees that print one variable at two offsets are alike; trees that print two, or fewer trees, aren't. An unknown
/// variable is refused at its offset, and without positions at 0.
pub fn law_alike_rows()
    ensures alike { AllAlike (printing (codes "x") 9 ∷ []) (printing (codes "x") 12 ∷ []) }
    ensures other_name { AllAlike (printing (codes "x") 9 ∷ []) (printing (codes "y") 9 ∷ []) → ⊥ }
    ensures fewer { AllAlike (printing (codes "x") 9 ∷ []) [] → ⊥ }
    ensures refused { check_fault (printing (codes "x") 9 ∷ [])
        ≡ Some (in_file 0 (record { code = code.Unknown; at = 9; left = codes "x"; right = [] })) }
    ensures without_position { option_map (λ (found : CheckFault). fault_without_position
        (record { code = found.fault.code; file = found.file; at = found.fault.at }))
        (check_fault (printing (codes "x") 9 ∷ [])) ≡ Some (record { code = code.Unknown; file = 0; at = 0 }) }
{}
