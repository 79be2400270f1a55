// The words that RMA erases.
#![tactic(auto)]

ghost use Rattle.std.specs.Prelude.{◌≡◌, ◌-◌, ◌≤◌, length, replicate};
ghost use Rattle.std.proofs.lemmas.List.Edits.{sets};
ghost use Rattle.model.specs.Geometry.{image_words};
ghost use Rattle.model.specs.Words.{all_ones};
ghost use Rattle.model.specs.Lifecycle.{wiped};

use model::{CREATOR_PAGE, ERASED, ISOLATED_PAGE, WIDE_INFO_PAGES, WIDE_PAGE_WORDS};

// Ones in the words from `from` up to `to`.
#[tactic(auto, using(model::proofs::Parts::part_stored))]
fn erase_range(image: &mut [u32], from: usize, to: usize)
    requires { (from ≤ to) × (to ≤ length image.old) }
    ensures { image.new ≡ sets image.old from (replicate (to - from) all_ones) }
{
    image[from..to].fill(ERASED);
}

// The special pages, behind the first information page of bank 0.
const FIRST_SPECIAL: usize = CREATOR_PAGE as usize;

const PAST_SPECIAL: usize = ISOLATED_PAGE as usize + 1;

// The data pages of bank 0, the three special pages behind its first information page, the data pages of bank 1.
#[tactic(auto, using(model::proofs::Lifecycle::wiped_ranges))]
pub fn wipe(image: &mut [u32], d: u32)
    requires { length image.old ≡ image_words d }
    ensures { image.new ≡ wiped d 0 image.old }
{
    let pages = d as usize;
    erase_range(image, 0, pages * WIDE_PAGE_WORDS);
    erase_range(
        image,
        (pages + FIRST_SPECIAL) * WIDE_PAGE_WORDS,
        (pages + PAST_SPECIAL) * WIDE_PAGE_WORDS,
    );
    erase_range(
        image,
        (pages + WIDE_INFO_PAGES) * WIDE_PAGE_WORDS,
        (2 * pages + WIDE_INFO_PAGES) * WIDE_PAGE_WORDS,
    );
}
