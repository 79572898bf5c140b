// The running record of document 02, F-14: it takes one length at a time and holds the best run of `width` neighbours so far.
ghost use Rattle.std.specs.Prelude.{◌≡◌, List, ℕ, ◌≤◌};
ghost use Rattle.load.specs.Record.{Fresh, oldest_in, best_kept, Takes, Pushes, pushed};
ghost use Rattle.load.specs.Tally.{with_ring, Slides};

// The longest length that is taken, the most lengths, the widest window, and the most that one can sum up to.
pub const LONGEST: u16 = 1000;

pub const MOST_LENGTHS: u64 = 1_000_000;

pub const WIDEST: u64 = 64;

const MOST_SUM: u64 = WIDEST * LONGEST as u64;

// `recent` is a ring of the last 64 lengths, `sum` the sum of the last `width`; `largest` is the largest sum of a run and
// `first` the number, from 1, of that run's first length, or 0 while there is no run.
#[repr(C)]
#[derive(Clone, Copy)]
pub struct Window {
    pub width: u64,
    pub count: u64,
    pub recent: [u16; 64],
    pub sum: u64,
    pub largest: u64,
    pub first: u64,
}

// A record without its ring. It fits into registers, where a whole record would be copied again and again.
#[derive(Clone, Copy)]
pub struct Tally {
    pub width: u64,
    pub count: u64,
    pub sum: u64,
    pub largest: u64,
    pub first: u64,
}

// The length that a further one pushes out of the window; 0 while the window is not full.
fn oldest(t: Tally, recent: &[u16; 64]) -> u64
    ensures { result ≡ oldest_in (with_ring t recent.now) }
{
    if t.count < t.width {
        return 0;
    }
    let at = ((t.count - t.width) % WIDEST) as usize;
    u64::from(recent[at])
}

// A tally whose window sum is new: the run that ends here is kept where it is better than the best before it.
fn with_best(t: Tally) -> Tally
    requires { t.count ≤ 1000000 }
    ensures { (ring : List ℕ) → with_ring result ring ≡ best_kept (with_ring t ring) }
{
    if t.count < t.width || t.first != 0 && t.sum <= t.largest {
        return t;
    }
    Tally {
        largest: t.sum,
        first: t.count - t.width + 1,
        ..t
    }
}

// One length more, if it is not too long and not one too many. The other tests fail only where no list of
// lengths leads to the record.
pub fn slide(t: Tally, recent: &mut [u16; 64], length: u16) -> Option<Tally>
    ensures { Slides t recent.old length result recent.new }
{
    let old = oldest(t, recent);
    if LONGEST < length || MOST_LENGTHS <= t.count || MOST_SUM < t.sum || t.sum < old {
        return None;
    }
    let at = (t.count % WIDEST) as usize;
    recent[at] = length;
    Some(with_best(Tally {
        sum: t.sum - old + u64::from(length),
        count: t.count + 1,
        ..t
    }))
}

// A record without its ring, and with one.
pub fn tally_of(w: Window) -> Tally
    ensures { with_ring result w.recent ≡ w }
{
    Tally {
        width: w.width,
        count: w.count,
        sum: w.sum,
        largest: w.largest,
        first: w.first,
    }
}

pub fn with_ring(t: Tally, recent: [u16; 64]) -> Window
    ensures { result ≡ with_ring t recent }
{
    Window {
        width: t.width,
        count: t.count,
        recent,
        sum: t.sum,
        largest: t.largest,
        first: t.first,
    }
}

// A record that has taken nothing.
pub fn empty_window(width: u64) -> Window
    ensures { Fresh width result }
{
    Window {
        width,
        count: 0,
        recent: [0; 64],
        sum: 0,
        largest: 0,
        first: 0,
    }
}

// The running record with one length more, if it takes it: it comes and goes by value.
pub fn push(w: Window, length: u16) -> Option<Window>
    ensures { Takes w length (pushed w result) }
{
    let mut recent = w.recent;
    let next = slide(tally_of(w), &mut recent, length)?;
    Some(with_ring(next, recent))
}

// The lent record takes one length; whether it did is answered.
pub fn load_push(w: &mut Window, length: u16) -> bool
    ensures { Pushes w.old length result w.new }
{
    let Some(next) = push(*w, length) else {
        return false;
    };
    *w = next;
    true
}
