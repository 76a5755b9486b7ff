//! Matching of a list of symbols, some of which are stars, against a list of elements. Where the symbols up to the next
//! star fit, a longer run for an earlier star need not be tried. So each turn drops symbols or one element for good,
//! and there are no more turns than symbols and elements together.
ghost use Rattle.std.specs.Prelude.{◌≡◌, ◌==◌, Bool, string_bytes};
ghost use Rattle.zw_def.specs.Pattern.{is_star, is_double_star, some_rest, can_cut, matches_part};
ghost use Rattle.zw_path.specs.Front.{front_of, IsWithin};

/// A symbol of a pattern.
pub(crate) trait Symbol {
    ghost is_star: { Self → Bool };

    ghost fits: { Self → Self → Bool };

    /// Whether it stands for any run of elements.
    fn is_star(&self) -> bool
        ensures { result ≡ is_star self.now };

    /// Whether it stands for this one element, where it is no star.
    fn fits(&self, element: &Self) -> bool
        ensures { result ≡ fits self.now element.now };
}

impl Symbol for u8 {
    ghost is_star = { λ b. is_star b };

    ghost fits = { λ b c. b == c };

    fn is_star(&self) -> bool {
        *self == b'*'
    }

    fn fits(&self, element: &u8) -> bool {
        *self == *element
    }
}

impl Symbol for String {
    ghost is_star = { λ p. is_double_star (string_bytes p) };

    ghost fits = { λ p t. matches_part (string_bytes p) (string_bytes t) };

    fn is_star(&self) -> bool {
        self.as_str() == "**"
    }

    fn fits(&self, element: &String) -> bool {
        can_match(self.as_bytes(), element.as_bytes())
    }
}

/// How the front of the symbols, up to the first star, compares with the elements.
#[derive(Clone, Copy)]
enum Front {
    /// The first star stands at this place, and the symbols before it fit the first elements.
    Star(usize),
    /// There is no star, and the symbols fit all elements.
    Whole,
    /// Neither.
    Unlike,
}

fn front_against<S: Symbol>(pattern: &[S], elements: &[S]) -> Front
    ensures value { result ≡ front_of S.is_star S.fits pattern.now elements.now }
    ensures within { IsWithin pattern.now elements.now result }
{
    for (place, symbol) in pattern.iter().enumerate() {
        if symbol.is_star() {
            return Front::Star(place);
        }
        if place == elements.len() {
            return Front::Unlike;
        }
        if !symbol.fits(&elements[place]) {
            return Front::Unlike;
        }
    }
    if pattern.len() == elements.len() {
        Front::Whole
    } else {
        Front::Unlike
    }
}

/// Whether the symbols match what is left after some run of the elements.
fn can_match_rest<S: Symbol>(mut pattern: &[S], mut elements: &[S]) -> bool
    ensures { result ≡ some_rest (can_cut S.is_star S.fits pattern.entry.now) elements.entry.now }
{
    'turns: loop {
        match front_against(pattern, elements) {
            Front::Star(place) => {
                pattern = &pattern[place..][1..];
                elements = &elements[place..];
            }
            Front::Whole => return true,
            Front::Unlike => {
                if elements.is_empty() {
                    return false;
                }
                elements = &elements[1..];
            }
        }
    }
}

/// Whether the symbols match the elements.
pub(crate) fn can_match<S: Symbol>(pattern: &[S], elements: &[S]) -> bool
    ensures { result ≡ can_cut S.is_star S.fits pattern.now elements.now }
{
    match front_against(pattern, elements) {
        Front::Star(place) => can_match_rest(&pattern[place..][1..], &elements[place..]),
        Front::Whole => true,
        Front::Unlike => false,
    }
}
