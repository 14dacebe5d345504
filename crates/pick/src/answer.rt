// What a query is answered with, and how it reads.
use ranked::Find;
use std::fmt;

// A find, and the grade of its distance.
#[derive(Clone, Copy)]
pub struct Graded {
    pub find: Find,
    pub grade: u32,
}

// The query, how many clips there are, and the nearest of them by each of three measures.
#[derive(Drop)]
pub struct Answer {
    pub query: Vec<u8>,
    pub clips: usize,
    pub hamming: Vec<Find>,
    pub geh: Vec<Graded>,
    pub barred: Vec<Find>,
}

impl fmt::Display for Graded {
    fn fmt<W: fmt::Write>(&self, f: &mut fmt::Formatter<W>) -> fmt::Result {
        write!(f, "{} (grade {})", self.find, self.grade)
    }
}

// The finds in their order, or that there are none.
fn show_list<T: fmt::Display, W: fmt::Write>(
    finds: &[T],
    f: &mut fmt::Formatter<W>,
) -> fmt::Result {
    let [first, others @ ..] = finds else {
        return write!(f, " none");
    };
    write!(f, " {first}")?;
    for find in others {
        write!(f, ", {find}")?;
    }
    Ok(())
}

impl fmt::Display for Answer {
    fn fmt<W: fmt::Write>(&self, f: &mut fmt::Formatter<W>) -> fmt::Result {
        write!(f, "query")?;
        for letter in self.query.as_slice() {
            write!(f, " {letter}")?;
        }
        write!(f, ", clips in the library: {}", self.clips)?;
        write!(f, "\n  hamming:")?;
        show_list(&self.hamming, f)?;
        write!(f, "\n  geh:    ")?;
        show_list(&self.geh, f)?;
        write!(f, "\n  barred: ")?;
        show_list(&self.barred, f)
    }
}
