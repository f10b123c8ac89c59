ghost use Rattle.std.specs.Prelude.{◌≡◌, ◌<◌, IfOk, length};
ghost use Rattle.scenario_lists.specs.Combinations.{AreChoices, chosen_at, choices_of, combinations, realisations_at};

use smps_stoch::{Element, Realisation};
use std::alloc::{AllocError, Global};
use wide_num::List;

/// The choices of a combination.
pub fn choices(
    alloc: Global,
    elements: &List<Element>,
    count: usize,
    number: usize,
) -> Result<Vec<usize>, AllocError>
    requires all { count ≡ combinations elements.now }
    requires there { number < count }
    ensures choices { IfOk result (λ choices. choices.items ≡ choices_of elements.now number) }
    ensures there { IfOk result (λ choices. AreChoices elements.now choices.items) }
{
    let mut size = count;
    let mut rest = number;
    let mut choices = Vec::new(alloc);
    for k in 0..elements.len() {
        size /= realisations_at(elements, k).len();
        choices.push(rest / size)?;
        rest %= size;
    }
    Ok(choices)
}

/// The realisations of an element.
pub fn realisations_at(elements: &List<Element>, k: usize) -> &[Realisation]
    requires { k < length elements.now }
    ensures { result.now ≡ realisations_at elements.now k }
{
    elements.as_slice()[k].realisations.as_slice()
}

/// The realisation that a choice chooses of an element.
pub fn chosen_at<'a>(elements: &'a List<Element>, choices: &[usize], k: usize) -> &'a Realisation
    requires choices { AreChoices elements.now choices.now }
    requires there { k < length elements.now }
    ensures { result.now ≡ chosen_at elements.now choices.now k }
{
    &realisations_at(elements, k)[choices[k]]
}
