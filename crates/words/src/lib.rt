// A bus word of the image: what a read delivers of it, what programming and erasing make of it, and how many bits that changes.
#![tactic(auto)]

ghost use Rattle.std.specs.Prelude.{◌≡◌, ◌<◌, ◌≤◌, length, get_or, set};
ghost use Rattle.model.specs.State.{flash};
ghost use Rattle.model.specs.Steps.{delivered, read_word};
ghost use Rattle.model.specs.Words.{programmed, changed_bits, all_ones};

use model::{BusWord, ERASED};

// The true word at a place of the image.
pub fn delivered(image: &[u32], at: BusWord) -> u32
    requires { at.0 < length image.now }
    ensures { result ≡ delivered (flash image.now) at }
{
    let place = at.0 as usize;
    image[place]
}

// Word `k` of a read, at its place: the true one, or ones where it is not readable.
pub fn read_word(image: &[u32], at: BusWord, k: u32, readable: u32) -> u32
    requires { at.0 < length image.now }
    ensures { result ≡ read_word (flash image.now) readable k at }
{
    if k < readable {
        return delivered(image, at);
    }
    ERASED
}

// A bit stays one only if both are one.
pub fn programmed(old: u32, new: u32) -> u32
    ensures { result ≡ programmed old new }
{
    old & new
}

// The number of the 32 bit places where the two words differ, counted in their difference.
pub fn changed_bits(old: u32, new: u32) -> u32
    ensures { (result ≡ changed_bits old new) × (result ≤ 32) }
{
    u32::count_ones(old ^ new)
}

// Programs a word of the image, and answers the bits that this changes.
pub fn program_word(image: &mut [u32], at: BusWord, new: u32) -> u32
    requires { at.0 < length image.old }
    ensures value { (result ≡ changed_bits (get_or image.old at.0 0) (programmed (get_or image.old at.0 0) new)) × (result ≤ 32) }
    ensures image_after { image.new ≡ set image.old at.0 (programmed (get_or image.old at.0 0) new) }
{
    let place = at.0 as usize;
    let old = image[place];
    let combined = programmed(old, new);
    image[place] = combined;
    changed_bits(old, combined)
}

// Erases a word of the image, and answers the bits that this changes.
pub fn erase_word(image: &mut [u32], at: BusWord) -> u32
    requires { at.0 < length image.old }
    ensures value { (result ≡ changed_bits (get_or image.old at.0 0) all_ones) × (result ≤ 32) }
    ensures image_after { image.new ≡ set image.old at.0 all_ones }
{
    let place = at.0 as usize;
    let old = image[place];
    let ones = ERASED;
    image[place] = ones;
    changed_bits(old, ones)
}
