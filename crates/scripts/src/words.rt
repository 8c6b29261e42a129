// The words of a line.
ghost use Rattle.std.specs.Prelude.{◌≡◌, ◌<◌, ◌≤◌, [], ◌∷◌, length, IfSome, MatchOption};
ghost use Rattle.std.specs.Iterator.{YieldsFirstRef, item_count};
ghost use Rattle.scripts.specs.Words.{words_of};

/// A text behind the blanks at its front.
// Out of line, so that `next_word` stays small.
#[inline(never)]
fn past_blanks(text: &str) -> &str
    ensures words { words_of result.now ≡ words_of text.now }
    ensures bound { length result.now ≤ length text.now }
{
    text.trim_start_matches([' ', '\t', '\r'])
}

/// The first word of a text and what follows it, if there is a word.
#[inline]
pub fn next_word(text: &str) -> Option<(&str, &str)>
    ensures words { MatchOption result (words_of text.now ≡ []) (λ p. words_of text.now ≡ p.0.now ∷ words_of p.1.now) }
    ensures falls { IfSome result (λ p. length p.1.now < length text.now) }
{
    // One scan where a word comes first: to trim before each `split_once` made a short command take half as long again to read.
    // After a blank the others are passed over at once, since a split at each takes twice as long on a text of many.
    let mut left = text;
    while let Some((piece, rest)) = left.split_once([' ', '\t', '\r']) {
        if !piece.is_empty() {
            return Some((piece, rest));
        }
        left = past_blanks(rest);
    }
    if left.is_empty() {
        None
    } else {
        Some((left, ""))
    }
}

/// The words of a text, each in its turn.
#[derive(Drop)]
pub struct Words<'a> {
    pub left: &'a str,
}

impl<'a> Words<'a> {
    /// The words of a text.
    pub fn new(text: &'a str) -> Words<'a>
        ensures { result.left.now ≡ text.now }
    {
        Words { left: text }
    }
}

impl<'a> Iterator for Words<'a> {
    type Item = &'a str;

    ghost next_gives = { YieldsFirstRef (λ s. words_of s.left.now) };

    ghost remaining = { item_count (λ s. words_of s.left.now) };

    #[inline]
    fn next(&mut self) -> Option<&'a str> {
        let (word, rest) = next_word(self.left)?;
        self.left = rest;
        Some(word)
    }
}
