//! Laws of the definitions, each a function that does nothing and whose contract is the law.

ghost use Rattle.std.specs.Prelude.{◌≡◌, ◌≤◌, ℕ, Bool, List, [], Ok, Err, None, length};
ghost use Rattle.serde_json.specs.Data.{Data};
ghost use Rattle.soy_tree.specs.Types.{SoyType};
ghost use Rattle.soy_tree.specs.Values.{Value};
ghost use Rattle.soy_rules.specs.Has.{Has};
ghost use Rattle.soy_rules.specs.Declarations.{params_fault, type_fault};
ghost use Rattle.soy_rules.specs.ShortLists.{HasShortLists};
ghost use Rattle.soy_tree.specs.Trees.{Param};
ghost use Rattle.soy_types.specs.ListsWithin.{HasListsWithin};
ghost use Rattle.soy_types.specs.ParamsHave.{ParamsHave};
ghost use Rattle.soy_base.specs.Path.{Path};
ghost use Rattle.soy_types.specs.Read.{value_at};
ghost use Rattle.soy_types.specs.ReadData.{data_at};
ghost use Rattle.soy_types.specs.Stands.{StandsFor};

/// The value that is read of a JSON value is one that it stands for, and of a type that may be declared it is of that
/// type; and nothing is read only where the JSON value stands for no value of the type.
pub fn law_read()
    ensures stands { (t : SoyType) (d : Data) (v : Value) → value_at t d ≡ Ok v → StandsFor v d }
    ensures of_type { (t : SoyType) (d : Data) (v : Value) (at : ℕ) (alone : Bool) → type_fault t at alone ≡ None
        → value_at t d ≡ Ok v → Has v t }
    ensures complete { (t : SoyType) (d : Data) (v : Value) (path : Path) → StandsFor v d → Has v t
        → value_at t d ≡ Err path → ⊥ }
{}

/// Data that are read for parameters without a fault have the parameters: under each name a value of its type.
pub fn law_data()
    ensures { (params : List Param) (bytes : List ℕ) (v : Value) → params_fault params [] ≡ None
        → data_at params bytes ≡ Ok v → ParamsHave params v }
{}

/// A list that is read of data, at any depth, has no more items than the data have bytes. So the lists of data of at
/// most 2^53 bytes are short.
pub fn law_short_data()
    ensures within { (params : List Param) (bytes : List ℕ) (v : Value) → data_at params bytes ≡ Ok v →
        HasListsWithin (length bytes) v }
    ensures short { (params : List Param) (bytes : List ℕ) (v : Value) → length bytes ≤ 9007199254740992 →
        data_at params bytes ≡ Ok v → HasShortLists v }
{}
