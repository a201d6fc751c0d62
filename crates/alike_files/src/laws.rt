//! What holds of trees that are alike: functions with an empty body, whose contracts are the laws.

ghost use Rattle.std.specs.Prelude.{◌≡◌, ℕ, List, Option, Some, slice_get};
ghost use Rattle.soy_rules.specs.Templates.{Declared, declared};
ghost use Rattle.soy_tree.specs.Trees.{Tree};
ghost use Rattle.soy_tree.specs.Values.{Value};
ghost use Rattle.soy_tree.specs.declared.bundle.Bundle.{Bundle};
ghost use Rattle.msg_extract.specs.Catalogue.{catalogue_of};
ghost use Rattle.soy_pieces.specs.Giving.{RunEnv};
ghost use Rattle.soy_meaning.specs.Runs.TypedData.{FitsData};
ghost use Rattle.alike_files.specs.AllAlike.{AllAlike};
ghost use Rattle.alike_files.specs.IdsIn.{ids_in};
ghost use Rattle.alike_files.specs.MeaningUnder.{meaning_under, run_under};
ghost use Rattle.alike_files.specs.RunWithoutPositions.{outcome_without_positions};
ghost use Rattle.alike_files.specs.WithoutPositions.{result_without_position};

/// Trees that are alike have the same ids, and the same catalogue, or the same clash but for its position.
pub fn law_alike_ids()
    ensures ids { (trees others : List Tree) → AllAlike trees others → ids_in trees ≡ ids_in others }
    ensures rows { (trees others : List Tree) → AllAlike trees others →
        result_without_position (catalogue_of trees) ≡ result_without_position (catalogue_of others) }
{}

/// Of trees that are alike, templates of one number mean the same, for all data and bundles. What they give is the same
/// in its pieces, costs and choices, and in its end but for the position of a stop. The same data fit them.
pub fn law_alike_meaning()
    ensures meaning { (bundle : Bundle) (trees others : List Tree) (number : ℕ) (d other : Declared) (v : Value) →
        AllAlike trees others → slice_get (declared trees) number ≡ Some d →
        slice_get (declared others) number ≡ Some other →
        meaning_under bundle trees d v ≡ meaning_under bundle others other v }
    ensures runs { (bundle : Bundle) (trees others : List Tree) (number : ℕ) (d other : Declared) (v : Value) →
        AllAlike trees others → slice_get (declared trees) number ≡ Some d →
        slice_get (declared others) number ≡ Some other → outcome_without_positions (run_under bundle trees d v)
        ≡ outcome_without_positions (run_under bundle others other v) }
    ensures data_fit { (trees others : List Tree) (number : ℕ) (d other : Declared) (env : RunEnv) →
        AllAlike trees others → slice_get (declared trees) number ≡ Some d →
        slice_get (declared others) number ≡ Some other → FitsData d env → FitsData other env }
{}
