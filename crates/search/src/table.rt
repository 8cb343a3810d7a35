// The table of who meets whom among the demands of a search.
ghost use Rattle.std.specs.Prelude.{◌≡◌};
ghost use Rattle.search.specs.inner.Table.{table_row, meeting_table};

use meeting::share_bit;

// Which two of the first twenty demands share a link, twenty rows of twenty.
// Kept as it is: this table goes by value, a form of the project (docs/DECISIONS.md, Forms), and that of `groups`, ten times as wide, is filled
// where it stands, since two of it would not fit the stack that the header promises; so the two are no twins of one function.
pub(crate) fn meeting_table(words: [u64; 200]) -> [[bool; 20]; 20]
    ensures { result ≡ meeting_table words }
{
    let mut table = [[false; 20]; 20];
    for i in 0..20 {
        let word = words[i];
        table[i] = table_row(&words, word);
    }
    table
}

// Which of the first twenty demands have a link of a route, by its word.
// Kept as it is: `word_row` of `meeting` is public and answers for 200 words, by its clause, and a search has twenty.
fn table_row(words: &[u64; 200], word: u64) -> [bool; 20]
    ensures { result ≡ table_row words.now word }
{
    let mut row = [false; 20];
    for j in 0..20 {
        row[j] = share_bit(word, words[j]);
    }
    row
}
