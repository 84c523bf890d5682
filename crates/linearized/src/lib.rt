// Linearized polynomials and why decoding is exact: each function's contract is a theorem.
#![tactic(auto)]

ghost use Rattle.linearized.specs.Theorems.{ValuesLinear, CountedLeast, KernelBound, DivisionStart, DivisionCoefficient, DivisionStepKept, DivisionEnd, DivisionExists, DivisionUnique, InterpolationStart, InterpolationStep, InterpolationNext, InterpolationEnd, InterpolationExists, HeadersSpanned, GraphSpanned, CodewordSpanned, DistanceShared, DistanceExists, DistanceFaults, ResidualRank, SharedMeasured, WithinMeasured, WithinReach, MinimumDistance, CodewordWithin, DecodingExact, DecodingUnique, DecodingMeasured};

pub fn value_laws<K, S>()
    ensures { ValuesLinear K S }
{}

pub fn counted_least<S>()
    ensures { CountedLeast S }
{}

pub fn kernel_bound<K, S>()
    ensures { KernelBound K S }
{}

pub fn division_start<K, S>()
    ensures { DivisionStart K S }
{}

pub fn division_coefficient<K, S>()
    ensures { DivisionCoefficient K S }
{}

pub fn division_step<K, S>()
    ensures { DivisionStepKept K S }
{}

pub fn division_end<K, S>()
    ensures { DivisionEnd K S }
{}

pub fn division_exists<K, S>()
    ensures { DivisionExists K S }
{}

pub fn division_unique<K, S>()
    ensures { DivisionUnique K S }
{}

pub fn interpolation_start<K, S>()
    ensures { InterpolationStart K S }
{}

pub fn interpolation_step<K, S>()
    ensures { InterpolationStep K S }
{}

pub fn interpolation_next<K, S>()
    ensures { InterpolationNext K S }
{}

pub fn interpolation_end<K, S>()
    ensures { InterpolationEnd K S }
{}

pub fn interpolation_exists<K, S>()
    ensures { InterpolationExists K S }
{}

pub fn headers_spanned<K, S>()
    ensures { HeadersSpanned K S }
{}

pub fn graph_spanned<K, S>()
    ensures { GraphSpanned K S }
{}

pub fn codeword_spanned<K, S>()
    ensures { CodewordSpanned K S }
{}

pub fn distance_shared<K, V>()
    ensures { DistanceShared K V }
{}

pub fn distance_exists<K, V>()
    ensures { DistanceExists K V }
{}

pub fn distance_faults<K, S>()
    ensures { DistanceFaults K S }
{}

pub fn residual_rank<K, S>()
    ensures { ResidualRank K S }
{}

pub fn shared_measured<K, S>()
    ensures { SharedMeasured K S }
{}

pub fn within_measured<K, S>()
    ensures { WithinMeasured K S }
{}

pub fn within_reach<K, S>()
    ensures { WithinReach K S }
{}

pub fn minimum_distance<K, S>()
    ensures { MinimumDistance K S }
{}

pub fn codeword_within<K, S>()
    ensures { CodewordWithin K S }
{}

pub fn decoding_exact<K, S>()
    ensures { DecodingExact K S }
{}

pub fn decoding_unique<K, S>()
    ensures { DecodingUnique K S }
{}

pub fn decoding_measured<K, S>()
    ensures { DecodingMeasured K S }
{}
