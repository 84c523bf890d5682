// Linear algebra over any field and any kind of row: theory only. The contract of each function is a theorem.
#![tactic(auto)]

ghost use Rattle.linear.specs.Theorems.{DimUnique, DimExists, DimIndependent, DimReduced, DimMono, DimFull, DimWidth, DimAdding, SpanDecided, ReducedExists, ReducedUnique, SumSpanned, MeetSpanned, DimSumMeet, KernelSpanned, ImageSpanned, RankNullity};

// A space has at most one dimension.
pub fn dim_unique<K, V>()
    ensures { DimUnique K V }
{}

// A span has a dimension.
pub fn dim_exists<K, V>()
    ensures { DimExists K V }
{}

// The length of an independent list is the dimension of its span.
pub fn dim_independent<K, V>()
    ensures { DimIndependent K V }
{}

// So is the length of a reduced list, and the list is independent.
pub fn dim_reduced<K, V>()
    ensures { DimReduced K V }
{}

// A span inside another has at most the dimension of the other.
pub fn dim_mono<K, V>()
    ensures { DimMono K V }
{}

// And is the other if the dimensions are equal.
pub fn dim_full<K, V>()
    ensures { DimFull K V }
{}

// A dimension is at most the width.
pub fn dim_width<K, V>()
    ensures { DimWidth K V }
{}

// One row more raises the dimension by one if it lies outside the span and only then.
pub fn dim_adding<K, V>()
    ensures { DimAdding K V }
{}

// Whether a row lies in a span is decided.
pub fn span_decided<K, V>()
    ensures { SpanDecided K V }
{}

// A span has a reduced form.
pub fn reduced_exists<K, V>()
    ensures { ReducedExists K V }
{}

// And only one.
pub fn reduced_unique<K, V>()
    ensures { ReducedUnique K V }
{}

// Two lists together span the sum of their spans.
pub fn sum_spanned<K, V>()
    ensures { SumSpanned K V }
{}

// What two spans share is a span.
pub fn meet_spanned<K, V>()
    ensures { MeetSpanned K V }
{}

// dim (U + W) + dim (U ∩ W) = dim U + dim W.
pub fn dim_sum_meet<K, V>()
    ensures { DimSumMeet K V }
{}

// The kernel of a linear map on a span is a span.
pub fn kernel_spanned<K, V, W>()
    ensures { KernelSpanned K V W }
{}

// The images of a list span the image of its span.
pub fn image_spanned<K, V, W>()
    ensures { ImageSpanned K V W }
{}

// The dimensions of kernel and image come to that of the span.
pub fn rank_nullity<K, V, W>()
    ensures { RankNullity K V W }
{}
