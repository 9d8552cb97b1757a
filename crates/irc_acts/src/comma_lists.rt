//! Lists whose entries are parted by commas (RFC 2812 section 2.3.1).
ghost use Rattle.std.specs.Prelude.{◌≡◌, ◌≤◌, false, not, ◌∷◌, length, take, drop};
ghost use Rattle.std.specs.List.{list_any};
ghost use Rattle.irc_line.specs.Bytes.{begins};
ghost use Rattle.irc_line.specs.MessageViews.{optional_now};
ghost use Rattle.irc_acts.specs.CommaLists.{is_comma, entries, pieces, pieces_left, length_left};
ghost use Rattle.irc_acts.specs.CommaLists.{IsNextEntry};

const COMMA: u8 = b',';

/// The first entry of a comma list that is not empty, and the list behind it.
pub fn next_entry(list: &[u8]) -> Option<(&[u8], &[u8])>
    ensures { IsNextEntry list.now result }
{
    let behind = skip_commas(list);
    if behind.is_empty() {
        return None;
    }
    let end = entry_length(behind);
    Some((&behind[..end], &behind[end..]))
}

/// How many entries of a comma list are not empty.
pub fn entry_count(list: &[u8]) -> usize
    ensures { result ≡ length (entries list.now) }
{
    let mut count = 0;
    let mut rest = list;
    while let Some((_, behind)) = next_entry(rest) {
        count += 1;
        rest = behind;
    }
    count
}

/// The first piece of a comma list, which may be empty, and the list behind its comma, if there is
/// one.
pub fn first_piece(list: &[u8]) -> (&[u8], Option<&[u8]>)
    ensures parted { pieces list.now ≡ result.0.now ∷ pieces_left (optional_now result.1) }
    ensures shorter { length_left (optional_now result.1) ≤ length list.now }
{
    let end = entry_length(list);
    if end == list.len() {
        (list, None)
    } else {
        (&list[..end], Some(&list[end + 1..]))
    }
}

/// The list behind the commas at its front.
fn skip_commas(list: &[u8]) -> &[u8]
    ensures same { entries result.now ≡ entries list.now }
    ensures entry { begins is_comma result.now ≡ false }
    ensures shorter { length result.now ≤ length list.now }
{
    for (i, byte) in list.iter().enumerate() {
        if *byte != COMMA {
            return &list[i..];
        }
    }
    &[]
}

/// How long the entry at the front of a list is.
fn entry_length(list: &[u8]) -> usize
    ensures fits { result ≤ length list.now }
    ensures no_comma { list_any is_comma (take result list.now) ≡ false }
    ensures ends { begins (λ b. not (is_comma b)) (drop result list.now) ≡ false }
{
    for (i, byte) in list.iter().enumerate() {
        if *byte == COMMA {
            return i;
        }
    }
    list.len()
}
