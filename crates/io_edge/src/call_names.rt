ghost use Rattle.std.specs.Prelude.{◌≡◌, [], ◌∷◌, ◌++◌, OnErr, OnOk};

use std::alloc::{AllocError, Global};
use wide_num::{List, Text};

/// Puts a name to the list.
pub fn push_name(alloc: Global, names: &mut List<Text>, name: &str) -> Result<(), AllocError>
    ensures ok { OnOk result (names.new ≡ names.old ++ name.now ∷ []) }
    ensures err { OnErr result (names.new ≡ names.old) }
{
    let Ok(copy) = List::from_slice(alloc, name.as_bytes()) else {
        return Err(AllocError);
    };
    names.push(copy)
}
