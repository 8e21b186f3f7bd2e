// The set of features that a mailbox says it has, by the fixed places of their letters.
#![tactic(auto)]

ghost use Rattle.std.specs.Prelude.{◌≡◌};
ghost use Rattle.std.proofs.Math.Option.{some};
ghost use Rattle.grammar.specs.Sid.{no_features, has_feature, with_feature, level_of, read_sid, framed, level_of_sid};
ghost use Rattle.grammar.specs.Turns.{our_sid, fixed_text};

// "Letters have fixed places A = 0 to Z = 25", and `$` has one after them.
pub const PLACES: usize = FeatureSet::DOLLAR as usize + 1;

// A level is a digit.
const LEVELS: u8 = 10;

/// The features of a mailbox by the fixed places of their letters: 0 where a feature isn't there, else its level and 1 more.
#[derive(Clone, Copy)]
pub struct FeatureSet {
    pub levels: [u8; PLACES],
}

impl FeatureSet {
    pub const B: u8 = b'B' - b'A';

    pub const F: u8 = b'F' - b'A';

    pub const H: u8 = b'H' - b'A';

    pub const DOLLAR: u8 = 26;

    /// The level of our B.
    pub const OUR_LEVEL: u8 = 1;

    /// No feature at all.
    pub fn none() -> Self
        ensures { result.levels ≡ no_features }
    {
        Self {
            levels: [0; PLACES],
        }
    }

    /// Ours, each at level 0 but B: those that our SID says.
    #[tactic(auto, unfolding(grammar::specs::Sid::read_sid))]
    pub fn ours() -> Self
        ensures { some result.levels ≡ read_sid (fixed_text our_sid) }
    {
        FeatureSet::none()
            .with(FeatureSet::B, FeatureSet::OUR_LEVEL)
            .with(FeatureSet::F, 0)
            .with(FeatureSet::H, 0)
            .with(FeatureSet::DOLLAR, 0)
    }

    /// The set with the feature at this level; a level over 9 or a place over 26 adds nothing.
    pub fn with(mut self, letter: u8, level: u8) -> Self
        ensures { result.levels ≡ with_feature letter level self.levels }
    {
        let at = letter as usize;
        if level < LEVELS && at < PLACES {
            self.levels[at] = level + 1;
        }
        self
    }

    /// The feature is there, at any level.
    pub fn has(self, letter: u8) -> bool
        ensures { result ≡ has_feature letter self.levels }
    {
        let at = letter as usize;
        at < PLACES && 0 < self.levels[at]
    }

    /// The level of the feature; 0 where it isn't there.
    pub fn level(self, letter: u8) -> u8
        ensures { result ≡ level_of letter self.levels }
    {
        let at = letter as usize;
        if at < PLACES {
            self.levels[at].saturating_sub(1)
        } else {
            0
        }
    }

    /// A partner with these features is met in framed mode.
    pub fn is_framed(self) -> bool
        ensures { result ≡ framed self.levels }
    {
        self.has(FeatureSet::B)
    }

    /// The level in force with a partner that has these features: the lower of the two.
    #[tactic(auto, unfolding(grammar::specs::Sid::level_of_sid))]
    pub fn in_force(self) -> u8
        ensures { result ≡ level_of_sid self.levels }
    {
        self.level(FeatureSet::B).min(FeatureSet::OUR_LEVEL)
    }
}
