//! Laws of score replies. Each function returns nothing: its contract is the law.

ghost use Rattle.std.specs.Prelude.{ℕ, ◌^◌, ◌<◌, List, All};
ghost use Rattle.co_math.specs.Coefficients.{IsDegree};
ghost use Rattle.co_bfv.specs.Ciphertexts.{Ciphertext};
ghost use Rattle.co_switch.specs.Keys.{Keys};
ghost use Rattle.co_matvec.specs.Weights.{WeightMatrix};
ghost use Rattle.co_matvec.specs.Replies.{CanScore, AreDiagonals, AreScoreReplies, AreOnlyScoreReplies, MeanScores, ShowScores};

/// Score replies mean the sums of the keywords' weights modulo t, under every secret for which the
/// rotation keys are good.
pub fn replies_mean_scores()
    ensures { (w : WeightMatrix) (keys : Keys) (query replies : List Ciphertext)
        → CanScore w keys query → AreScoreReplies w keys query replies
        → MeanScores w keys query replies }
{}

/// With at most sixteen keywords and weights of at most 4032 they show the scores themselves.
pub fn replies_show_scores()
    ensures { (w : WeightMatrix) (keys : Keys) (query replies : List Ciphertext)
        → CanScore w keys query → AreScoreReplies w keys query replies
        → ShowScores w keys query replies }
{}

/// A query has one list of score replies.
pub fn one_list()
    ensures { (w : WeightMatrix) (keys : Keys) (query replies : List Ciphertext)
        → CanScore w keys query → AreScoreReplies w keys query replies
        → AreOnlyScoreReplies w keys query replies }
{}

/// Each diagonal has its polynomial, since a weight is below 2^16 and so below t.
pub fn diagonals_have_polynomials()
    ensures { (w : WeightMatrix) → IsDegree w.degree → All (λ e. e.2 < 2 ^ 16) w.entries → (a : ℕ)
        → (diagonal : ℕ → ℕ → List ℕ) × AreDiagonals w a diagonal }
{}
