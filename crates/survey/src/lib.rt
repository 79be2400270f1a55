// One look at the slots of the queue's pages, from the last to the first. specs/Survey.antt says what it tells.
#![tactic(auto)]

ghost use Rattle.std.specs.Prelude.{◌≡◌, [], ◌+◌, ◌≤◌, length};
ghost use Rattle.scan_queue.specs.Slots.{slots_from, places};
ghost use Rattle.slots.specs.Code.{to_slot};
ghost use Rattle.survey.specs.Survey.{nothing, saw_unused, saw_sealed, saw_waiting, saw, surveyed};

use slots::Class;

// The oldest scan that waits: the word at which its slot starts, and its serial.
#[derive(Clone, Copy)]
pub struct Oldest {
    pub place: usize,
    pub serial: u32,
}

// The highest sealed serial, 0 if there is none; the lowest unused slot, by its first word; and the oldest scan that waits.
#[derive(Clone, Copy)]
pub struct Survey {
    pub highest: u32,
    pub unused: Option<usize>,
    pub oldest: Option<Oldest>,
}

impl Survey {
    pub fn none() -> Survey
        ensures { result ≡ nothing }
    {
        Survey {
            highest: 0,
            unused: None,
            oldest: None,
        }
    }

    fn saw_unused(self, place: usize) -> Survey
        ensures { result ≡ saw_unused place self }
    {
        Survey {
            unused: Some(place),
            ..self
        }
    }

    fn saw_sealed(self, serial: u32) -> Survey
        ensures { result ≡ saw_sealed serial self }
    {
        Survey {
            highest: self.highest.max(serial),
            ..self
        }
    }

    fn saw_waiting(self, place: usize, serial: u32) -> Survey
        ensures { result ≡ saw_waiting place serial self }
    {
        let oldest = match self.oldest {
            Some(seen) if seen.serial < serial => seen,
            _ => Oldest { place, serial },
        };
        Survey {
            oldest: Some(oldest),
            ..self.saw_sealed(serial)
        }
    }

    // The slot at word `place`, of which only its kind and serial matter.
    pub fn saw_class(self, place: usize, class: Class) -> Survey
        ensures { result ≡ saw place (to_slot [] class) self }
    {
        match class {
            Class::Unused => self.saw_unused(place),
            Class::Dead => self,
            Class::Waiting(found) => self.saw_waiting(place, found.serial),
            Class::Taken(found) | Class::Odd(found) => self.saw_sealed(found.serial),
        }
    }
}

// The slots of the page that starts at word `q`, after what `s` saw.
pub fn survey_page(image: &[u32], q: usize, s: Survey) -> Survey
    requires { q + 256 ≤ length image.now }
    ensures { result ≡ surveyed image.now (slots_from 16 q) s }
{
    let mut t = s;
    for j in (0..16).rev() {
        let p = q + 16 * j;
        t = t.saw_class(p, slots::slot_at(image, p));
    }
    t
}

// Both pages: the lower starts at word `a`, the higher at word `b`.
#[tactic(auto, using(crate::proofs::Surveying::both_seen))]
pub fn survey_both(image: &[u32], a: usize, b: usize) -> Survey
    requires { (a + 256 ≤ length image.now) × (b + 256 ≤ length image.now) }
    ensures { result ≡ surveyed image.now (places a b) nothing }
{
    survey_page(image, a, survey_page(image, b, Survey::none()))
}
