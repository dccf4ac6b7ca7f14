//! Laws of the definitions, each the contract of a function without a body.

ghost use Rattle.std.specs.Prelude.{◌≡◌, ◌<◌, ◌++◌, ℤ, pos, ◌+ℤ◌, ◌*ℤ◌, ◌≤ℤ◌, ◌<ℤ◌, int_rem, unsigned_abs, List};
ghost use Rattle.cell_values.specs.declared.values.Value.{Value};
ghost use Rattle.cell_values.specs.declared.values.Value.TheVariants.{Num};
ghost use Rattle.cell_values.specs.Value.{add_of};
ghost use Rattle.functions.specs.declared.arguments.Arg.{Arg};
ghost use Rattle.functions.specs.Arithmetic.{floor, modulus, whole_quotient};
ghost use Rattle.functions.specs.Gathering.{sum_of};

/// The divisor times the floor of a quotient, and the modulus, make the number; the modulus lies from 0 to the divisor.
pub fn a_modulus_is_what_the_floor_leaves()
    ensures meets { (n k m : ℤ) → modulus n k ≡ Num m → k *ℤ floor n k +ℤ m ≡ n }
    ensures above { (n k m : ℤ) → modulus n k ≡ Num m → pos 0 <ℤ k → (pos 0 ≤ℤ m) × (m <ℤ k) }
    ensures below { (n k m : ℤ) → modulus n k ≡ Num m → k <ℤ pos 0 → (k <ℤ m) × (m ≤ℤ pos 0) }
{}

/// A quotient times its divisor, and what is left, make the number; what is left is nearer to 0 than the divisor.
pub fn a_quotient_leaves_less_than_the_divisor()
    ensures meets { (n k q : ℤ) → whole_quotient n k ≡ Num q → q *ℤ k +ℤ int_rem n k ≡ n }
    ensures small { (n k q : ℤ) → whole_quotient n k ≡ Num q
        → unsigned_abs (int_rem n k) < unsigned_abs k }
{}

/// The sum of arguments in two parts is the sum of the parts' sums, where these are numbers.
pub fn a_sum_is_the_sum_of_its_parts()
    ensures { (xs ys : List Arg) (a b : ℤ) → sum_of xs ≡ Num a → sum_of ys ≡ Num b
        → sum_of (xs ++ ys) ≡ add_of (sum_of xs) (sum_of ys) }
{}
