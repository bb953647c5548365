//! Laws of the definitions. None of these functions does anything: each states a law.
ghost use Rattle.std.specs.Prelude.{◌≡◌, ◌<◌, ℕ, Bool, List, Some, true};
ghost use Rattle.std.specs.List.{list_any};
ghost use Rattle.std.specs.List.Sorted.{IsStrictlySortedBy};
ghost use Rattle.std.specs.declared.cmp.Ordering.TheVariants.{Equal};
ghost use Rattle.hex.specs.Hex.{IsBytes};
ghost use Rattle.tail_base.specs.declared.limits.TheConstants.{POLICY_LIMIT};
ghost use Rattle.tail_base.specs.Keys.{key_text};
ghost use Rattle.tail_base.specs.Labels.{is_label, label_of};
ghost use Rattle.tail_base.specs.Logins.{is_login, login_of};
ghost use Rattle.tail_base.specs.Searches.{some_below};
ghost use Rattle.tail_base.specs.Sorted.{sorted_once};
ghost use Rattle.tail_base.specs.Tags.{is_tag, tag_of};

/// No two keys share a text: behind one head, as `mkey:`, equal texts are of equal bytes.
pub fn key_texts_differ()
    ensures differ { (head a b : List ℕ) → IsBytes a → IsBytes b
        → key_text head a ≡ key_text head b → a ≡ b }
{}

/// What a `Label` holds is read as that label.
pub fn labels_are_read_again()
    ensures read_again { (text : List ℕ) → is_label text ≡ true → label_of text ≡ Some text }
{}

/// What a `Login` holds is read as that login.
pub fn logins_are_read_again()
    ensures read_again { (text : List ℕ) → is_login text ≡ true → login_of text ≡ Some text }
{}

/// What a `Tag` holds is read as that tag.
pub fn tags_are_read_again()
    ensures read_again { (text : List ℕ) → is_tag text ≡ true → tag_of text ≡ Some text }
{}

/// A search below a bound finds a number that passes the test, wherever one does, and no other.
pub fn searches_find()
    ensures found { (n : ℕ) (test : ℕ → Bool) (y : ℕ) → y < n → test y ≡ true
        → some_below n test ≡ true }
    ensures finds { (n : ℕ) (test : ℕ → Bool) → some_below n test ≡ true → (y : ℕ) × (y < n)
        × (test y ≡ true) }
{}

/// What `sorted_once` gives rises strictly; and where only equal elements compare as equal, it is what
/// was given: some element passes a test exactly where some given one does.
pub fn sorted_lists_rise<T: Ord>()
    ensures rise { (xs : List T) → IsStrictlySortedBy T.cmp (sorted_once T.cmp xs) }
    ensures same { ((a b : T) → T.cmp a b ≡ Equal → a ≡ b)
        → (test : T → Bool) (xs : List T)
        → list_any test (sorted_once T.cmp xs) ≡ list_any test xs }
{}

/// The most bytes of a policy's text: 256 KiB.
pub fn the_numbers_are_these()
    ensures policy { POLICY_LIMIT ≡ 262144 }
{}
