// What a listing is asked for, of the path and of the word: each letter and entry at its place, and the lengths.
ghost use Rattle.std.specs.Prelude.{◌≡◌};
ghost use Rattle.listing.specs.Asked.{path_pattern, word_pattern};

use letters::Surface;

// Of the path, which is given as bytes, two to an entry number.
#[derive(Clone, Copy)]
pub enum PathAsked {
    Anything,
    Exactly,
}

// Of the word, which is given as its letters.
#[derive(Clone, Copy)]
pub enum WordAsked {
    Anything,
    Exactly,
}

// Of both together. The bytes of each are lent beside it.
#[derive(Clone, Copy)]
pub struct Asked {
    pub path: PathAsked,
    pub word: WordAsked,
}

// May this surface letter stand at this place?
pub fn allows_letter(asked: WordAsked, word: &[u8], i: usize, x: Surface) -> bool
    ensures { result ≡ (word_pattern asked word.now).allows i x.0 }
{
    match asked {
        WordAsked::Anything => true,
        WordAsked::Exactly => {
            if word.len() <= i {
                return false;
            }
            let own = letters::surface_at(word, i);
            letters::same_surface(own, x)
        }
    }
}

// May the word end after n letters?
pub fn ends_letters(asked: WordAsked, word: &[u8], n: usize) -> bool
    ensures { result ≡ (word_pattern asked word.now).may_end n }
{
    match asked {
        WordAsked::Anything => true,
        WordAsked::Exactly => n == word.len(),
    }
}

// May the path end after n entries?
pub fn ends_entries(asked: PathAsked, path: &[u8], n: usize) -> bool
    ensures { result ≡ (path_pattern asked path.now).may_end n }
{
    match asked {
        PathAsked::Exactly => n == path.len() / 2,
        PathAsked::Anything => true,
    }
}
