// What limits bring, by the feature that a replacement counts for.
ghost use Rattle.std.specs.Prelude.{◌≡◌, ◌≤◌, ◌<◌, ◌*◌, length, if◌then◌else◌, unsigned_abs, pos};
ghost use Rattle.goal_rows.specs.Cells.{same_feature};
ghost use Rattle.dual_bound.specs.Sizes.{AreNotWide};
ghost use Rattle.dual_bound.specs.Weighing.{limits_bring, signed};
ghost use Rattle.dual_bound.specs.WeighingParts.{is_feature};

use exact_num::WIDE;
use row_program::{Feature, Limit, MOST_LIMITS};

/// What the limits with these multipliers bring where a replacement counts for the feature.
pub(crate) fn limits_on(feature: Feature, limits: &[Limit], multipliers: &[u64]) -> i128
    requires one_each { length multipliers.now ≡ length limits.now }
    requires multipliers { AreNotWide multipliers.now }
    requires few { length limits.now ≤ MOST_LIMITS }
    ensures value { result ≡ limits_bring (is_feature feature) multipliers.now limits.now }
    ensures small { unsigned_abs result ≤ MOST_LIMITS * WIDE }
{
    let mut sum = 0;
    for (i, limit) in limits.iter().enumerate() {
        sum += brought_on(feature, limit, multipliers[i]);
    }
    sum
}

/// What a limit with this multiplier brings where a replacement counts for the feature.
fn brought_on(feature: Feature, limit: &Limit, multiplier: u64) -> i128
    requires multiplier { multiplier < WIDE }
    ensures value { result ≡ (if is_feature feature limit.now.feature then signed limit.now multiplier else pos 0) }
    ensures small { unsigned_abs result ≤ WIDE }
{
    if is_same(feature, limit.feature) {
        brought(limit, multiplier)
    } else {
        0
    }
}

/// What a limit with this multiplier brings where a replacement counts for its feature.
fn brought(limit: &Limit, multiplier: u64) -> i128
    requires multiplier { multiplier < WIDE }
    ensures value { result ≡ signed limit.now multiplier }
    ensures small { unsigned_abs result ≤ WIDE }
{
    let size = i128::from(multiplier);
    if limit.at_most { -size } else { size }
}

/// Whether the two features are one.
pub(crate) fn is_same(feature: Feature, other: Feature) -> bool
    ensures bringing { result ≡ is_feature feature other }
    ensures same { result ≡ same_feature feature other }
{
    match feature {
        Feature::From(key) => is_from_key(other, key),
        Feature::Arc(u, x) => is_arc_between(other, u, x),
    }
}

/// Whether the feature is that of the key.
fn is_from_key(feature: Feature, key: u64) -> bool
    ensures bringing { result ≡ is_feature (Feature.From key) feature }
    ensures same { result ≡ same_feature (Feature.From key) feature }
{
    match feature {
        Feature::From(other) => other == key,
        Feature::Arc(_, _) => false,
    }
}

/// Whether the feature is the arc from u to x.
fn is_arc_between(feature: Feature, u: u8, x: u8) -> bool
    ensures bringing { result ≡ is_feature (Feature.Arc u x) feature }
    ensures same { result ≡ same_feature (Feature.Arc u x) feature }
{
    match feature {
        Feature::From(_) => false,
        Feature::Arc(from, to) => from == u && to == x,
    }
}
