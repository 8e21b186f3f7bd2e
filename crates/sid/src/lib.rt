// The SID: the line in brackets in which a mailbox says its features.
#![tactic(auto)]

ghost use Rattle.std.specs.Prelude.{◌≡◌, true, not, ◌&&◌};
ghost use Rattle.std.proofs.Math.Option.{none, some};
ghost use Rattle.grammar.specs.Bytes.{null, every, split_at};
ghost use Rattle.grammar.specs.Sid.{is_letter, letter_place, no_features, sid_end, read_levels, read_features, split_last, data_read, author_read, read_sid, sid_number};
ghost use Rattle.grammar.specs.Ascii.{char};
ghost use Rattle.byte.specs.Classes.{class_of};
ghost use Rattle.sid.specs.Meaning.{features_said, no_partner_number, number_said, features_answered};

use byte::{Class, all_of, digit_byte, upper_of};
use features::FeatureSet;
use refusal::Refusal;
use span::find;

/// Why no session begins with a partner: its first line is no SID, or its SID, of these features, has no F.
#[derive(Clone, Copy)]
pub enum NoPartner {
    NotASid,
    NoForwarding(FeatureSet),
}

impl From<NoPartner> for u8 {
    ghost from_gives = { λ e n. n ≡ no_partner_number e };

    /// 01's number of the refusal.
    fn from(cause: NoPartner) -> u8 {
        match cause {
            NoPartner::NotASid => Refusal::NotSid as u8,
            NoPartner::NoForwarding(_) => Refusal::NoForwarding as u8,
        }
    }
}

// A letter, in either case.
fn is_letter(b: u8) -> bool
    ensures { result ≡ is_letter b }
{
    b.is_ascii_alphabetic()
}

// The place of a letter, A = 0 to Z = 25.
fn place_of(b: u8) -> u8
    requires { is_letter b ≡ true }
    ensures { result ≡ letter_place b }
{
    upper_of(b) - b'A'
}

// What follows the last letter: `]`, or `$` and `]`.
#[tactic(auto, using(crate::proofs::Laws::end_by))]
fn read_end(s: &[u8], features: FeatureSet) -> Option<FeatureSet>
    ensures { features_said result ≡ sid_end features.levels s.now }
{
    match s {
        b"]" => Some(features),
        b"$]" => Some(features.with(FeatureSet::DOLLAR, 0)),
        _ => None,
    }
}

// Letters, each once and with at most one digit, then the end.
fn read_levels(s: &[u8]) -> Option<FeatureSet>
    ensures { features_said result ≡ read_levels no_features s.now }
{
    let mut features = FeatureSet::none();
    let mut rest = s;
    while let [letter, after @ ..] = rest {
        if !is_letter(*letter) {
            break;
        }
        let place = place_of(*letter);
        if features.has(place) {
            return None;
        }
        match after {
            [digit, behind @ ..] if digit_byte(*digit) => {
                features = features.with(place, *digit - b'0');
                rest = behind;
            }
            _ => {
                features = features.with(place, 0);
                rest = after;
            }
        }
    }
    read_end(rest, features)
}

// The features, at least one letter, and the end.
fn read_features(s: &[u8]) -> Option<FeatureSet>
    ensures { features_said result ≡ read_features s.now }
{
    match s {
        [letter, ..] if is_letter(*letter) => read_levels(s),
        _ => None,
    }
}

// At least one byte, and every byte of the class.
fn some_of(s: &[u8], class: Class) -> bool
    ensures { result ≡ (every (class_of class) s.now && not (null s.now)) }
{
    !s.is_empty() && all_of(s, class)
}

// What follows the author's hyphen: data, where there is a hyphen more, and features.
fn read_data(s: &[u8]) -> Option<FeatureSet>
    ensures { features_said result ≡ data_read s.now (split_last s.now) }
{
    let Some(hyphen) = s.iter().rposition(|b| *b == b'-') else {
        return read_features(s);
    };
    if some_of(&s[..hyphen], Class::Data) {
        read_features(&s[hyphen + 1..])
    } else {
        None
    }
}

// What follows the bracket: the author up to the first hyphen, and the rest.
fn read_author(s: &[u8]) -> Option<FeatureSet>
    ensures { features_said result ≡ author_read (split_at (char "-") s.now) }
{
    let hyphen = find(s, b'-');
    if hyphen < s.len() && some_of(&s[..hyphen], Class::Author) {
        read_data(&s[hyphen + 1..])
    } else {
        None
    }
}

// The features that a line says as a SID.
fn sid_features(line: &[u8]) -> Option<FeatureSet>
    ensures { features_said result ≡ read_sid line.now }
{
    match line {
        [first, rest @ ..] if *first == b'[' => read_author(rest),
        _ => None,
    }
}

/// A partner that forwards, by what a line, its spaces at the end removed, says as a SID.
///
/// # Errors
///
/// `NotASid` where the line is no SID; `NoForwarding`, with the features that it says, where the SID has no F.
pub fn read_sid(line: &[u8]) -> Result<FeatureSet, NoPartner>
    ensures number { number_said result ≡ sid_number (read_sid line.now) }
    ensures features { features_answered result ≡ read_sid line.now }
{
    let features = sid_features(line).ok_or(NoPartner::NotASid)?;
    if features.has(FeatureSet::F) {
        Ok(features)
    } else {
        Err(NoPartner::NoForwarding(features))
    }
}
