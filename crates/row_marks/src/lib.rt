// The members of an answer row of a join behind its one-side place, which leads them, as marks: eight words of 64 bits a
// row.
#![tactic(auto)]

ghost use Rattle.std.specs.Prelude.{◌≡◌, ◌+◌, ◌≤◌, ◌<◌, length};
ghost use Rattle.row_marks.specs.Words.{unmarked, word_of, members_to, WordsPut};

// The word of at most 64 leads: bit j is set where lead j is the place o.
fn word_of(leads: &[usize], o: usize) -> usize
    requires { length leads.now ≤ 64 }
    ensures { result ≡ word_of o leads.now }
{
    let mut word = 0;
    for i in (0..leads.len()).rev() {
        word = word * 2 + usize::from(leads[i] == o);
    }
    word
}

// The words of leads, from the place `at` on. A word that the array has no room for is left out.
fn put_words(leads: &[usize], o: usize, at: usize, marks: &mut [usize])
    requires leads_len_bound { length leads.now ≤ 512 }
    requires at_bound { at ≤ 2097152 }
    ensures { WordsPut leads.now o at marks.old marks.new }
{
    for j in 0..leads.len().div_ceil(64) {
        let to = leads.len().min(64 * (j + 1));
        index_lists::note(marks, at + j, word_of(&leads[64 * j..to], o));
    }
}

// The marks of the leader o, from the place `at` on: which of the places behind it, up to `last`, have it as their
// leader. Where there are none, nothing is written.
pub fn mark_row(leads: &[usize], o: usize, last: usize, at: usize, marks: &mut [usize])
    requires leads_len_bound { length leads.now ≤ 512 }
    requires last_in_bounds { last < length leads.now }
    requires at_bound { at ≤ 2097152 }
    ensures { WordsPut (members_to o last leads.now) o at marks.old marks.new }
{
    if o < last {
        put_words(&leads[o + 1..=last], o, at, marks);
    }
}

// Whether no bit of words is set.
pub fn none_marked(marks: &[usize]) -> bool
    ensures { result ≡ unmarked marks.now }
{
    marks.iter().all(|word| *word == 0)
}
