//! Laws of the lag and of the prediction of a block, each the contract of a function that does nothing.

ghost use Rattle.std.specs.Prelude.{◌≡◌, ℕ, ℤ, List};
ghost use Rattle.fr_long.specs.Lag.{lag_of, IsLag};
ghost use Rattle.fr_long.specs.Prediction.{Prediction, prediction_of, IsPrediction};

/// For all correlations, exactly one lag is the chosen one, and `lag_of` gives it.
pub fn one_lag()
    ensures is_lag { (correlation : ℕ → ℤ) → IsLag correlation (lag_of correlation) }
    ensures only { (correlation : ℕ → ℤ) (nc : ℕ) → IsLag correlation nc → nc ≡ lag_of correlation }
{}

/// Each block has exactly one prediction, and `prediction_of` gives it.
pub fn one_prediction()
    ensures is_prediction { (d earlier : List ℤ) → IsPrediction d earlier (prediction_of d earlier) }
    ensures only { (d earlier : List ℤ) (p q : Prediction) → IsPrediction d earlier p → IsPrediction d earlier q → p ≡ q }
{}
