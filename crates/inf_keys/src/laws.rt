//! What holds of keys and their texts.

ghost use Rattle.std.specs.Prelude.{◌≡◌, ℕ, List};
ghost use Rattle.std.specs.Cmp.{IsTotalOrder};
ghost use Rattle.std.specs.declared.cmp.Ordering.TheVariants.{Equal};
ghost use Rattle.inf_keys.specs.declared.key.Key.{Key};
ghost use Rattle.inf_keys.specs.declared.reading.Reading.{Reading};
ghost use Rattle.inf_keys.specs.declared.reading.Reading.TheVariants.{Meaning};
ghost use Rattle.inf_keys.specs.KeyText.{key_text};
ghost use Rattle.inf_keys.specs.Meaning.{IsKey, Means};
ghost use Rattle.inf_keys.specs.Order.{key_cmp, InOneRow, IsUpTo};

/// Each text means one thing: it has a meaning, and no other. Each key has one text: that text means the key, and
/// no two keys have one text.
pub fn one_meaning()
    ensures some { (text : List ℕ) → (reading : Reading Key) × Means text reading }
    ensures one { (text : List ℕ) (a b : Reading Key) → Means text a → Means text b → a ≡ b }
    ensures written { (key : Key) → IsKey key → Means (key_text key) (Meaning key) }
    ensures apart { (a b : Key) → IsKey a → IsKey b → key_text a ≡ key_text b → a ≡ b }
{}

/// The order of keys is total and tells any two keys apart. What stands between two keys of one owner is that
/// owner's, and what stands between two keys of one row is of that row.
pub fn keys_stand_together()
    ensures total { IsTotalOrder key_cmp }
    ensures exact { (a b : Key) → key_cmp a b ≡ Equal → a ≡ b }
    ensures owner { (a b c : Key) → IsUpTo a b → IsUpTo b c → a.owner ≡ c.owner → b.owner ≡ a.owner }
    ensures row { (a b c : Key) → IsUpTo a b → IsUpTo b c → InOneRow a c → InOneRow a b }
{}
