// Lists of terms, as two slices of one length: the positive masks, and the negative masks of the same terms.
ghost use Rattle.std.specs.Prelude.{◌≡◌, ◌<◌, ◌≤◌, length};

use terms::Term;

// A list of terms.
#[derive(Clone, Copy)]
pub struct TermList<'a> {
    pub positives: &'a [u64],
    pub negatives: &'a [u64],
    ghost same_length: { length negatives.now ≡ length positives.now },
}

impl<'a> TermList<'a> {
    ghost use Rattle.lists.specs.List.{nth};

    // How many terms there are.
    pub fn len(self) -> usize
        ensures { result ≡ length self.entry.positives.now }
    {
        self.positives.len()
    }

    // Term k.
    pub fn at(self, k: usize) -> Term
        requires { k < length self.positives.now }
        ensures { result ≡ nth self.entry k }
    {
        Term {
            positive: self.positives[k],
            negative: self.negatives[k],
        }
    }
}

// Entries in which a list of terms is made.
#[derive(Drop)]
pub struct TermBuffer<'a> {
    pub positives: &'a mut [u64],
    pub negatives: &'a mut [u64],
    ghost same_length: { length negatives.now ≡ length positives.now },
}

impl<'a> TermBuffer<'a> {
    ghost use Rattle.lists.specs.Entries.{term_at};
    ghost use Rattle.lists.specs.List.{held, slots, terms_in};

    // The term in entry k.
    pub fn at(&self, k: usize) -> Term
        requires { k < length self.now.positives.now }
        ensures { result ≡ term_at self.now.positives.now self.now.negatives.now k }
    {
        Term {
            positive: self.positives[k],
            negative: self.negatives[k],
        }
    }

    // The list in the first count entries.
    pub fn front(&self, count: usize) -> TermList
        requires { count ≤ length self.now.positives.now }
        ensures terms { terms_in result ≡ held (slots self.now) count }
        ensures size { length result.positives.now ≡ count }
    {
        TermList {
            positives: &self.positives[..count],
            negatives: &self.negatives[..count],
        }
    }
}
