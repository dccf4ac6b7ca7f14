use cell_values::{ErrorKind, Value, exact_product, is_in_magnitude};

/// What is kept of the numbers that were met so far.
pub trait Tally: Drop {
    ghost use Rattle.std.specs.Prelude.{◌≡◌, ◌≤◌, ◌+◌, ◌^◌, ℕ, ℤ};

    ghost step: { Self → ℤ → Self };

    /// A bound of the room that it takes.
    ghost size: { Self → ℕ };

    /// With one number more.
    fn with(self, n: i64) -> Self
        requires { size self ≤ 2 ^ 100 }
        ensures next { result ≡ step self n }
        ensures grown { size result ≤ size self + 2 ^ 63 };
}

/// A sum.
#[derive(Drop)]
pub struct Sum(pub i128);

impl Tally for Sum {
    ghost use Rattle.std.specs.Prelude.{unsigned_abs};
    ghost use Rattle.functions.specs.Tallies.{sum_step};

    ghost step = { sum_step };

    ghost size = { λ s. unsigned_abs s.0 };

    fn with(self, n: i64) -> Sum {
        Sum(self.0 + i128::from(n))
    }
}

/// The least number, if there was one.
#[derive(Drop)]
pub struct Least(pub Option<i64>);

impl Tally for Least {
    ghost use Rattle.functions.specs.Tallies.{least_step};

    ghost step = { least_step };

    ghost size = { λ s. 0 };

    fn with(self, n: i64) -> Least {
        match self.0 {
            Some(least) => Least(Some(least.min(n))),
            None => Least(Some(n)),
        }
    }
}

/// The greatest number, if there was one.
#[derive(Drop)]
pub struct Greatest(pub Option<i64>);

impl Tally for Greatest {
    ghost use Rattle.functions.specs.Tallies.{greatest_step};

    ghost step = { greatest_step };

    ghost size = { λ s. 0 };

    fn with(self, n: i64) -> Greatest {
        match self.0 {
            Some(greatest) => Greatest(Some(greatest.max(n))),
            None => Greatest(Some(n)),
        }
    }
}

/// The exact product, as far as it matters.
#[derive(Drop)]
pub enum Product {
    /// Of no number.
    Empty,
    /// Within the magnitude.
    Within(i64),
    /// Outside the magnitude.
    Beyond,
}

impl Product {
    ghost use Rattle.std.specs.Prelude.{◌≡◌};
    ghost use Rattle.functions.specs.Tallies.{product_so_far, product_value};

    /// What is kept of a product.
    fn of(n: i128) -> Product
        ensures { result ≡ product_so_far n }
    {
        if is_in_magnitude(n) {
            Product::Within(n as i64)
        } else {
            Product::Beyond
        }
    }

    /// The product as a value, 0 of no number and `#NUM!` outside the magnitude.
    pub fn value(&self) -> Value
        ensures { result ≡ product_value self.now }
    {
        match self {
            Product::Empty => Value::Num(0),
            Product::Within(product) => Value::Num(*product),
            Product::Beyond => Value::Error(ErrorKind::Num),
        }
    }
}

impl Tally for Product {
    ghost use Rattle.functions.specs.Tallies.{product_step};

    ghost step = { product_step };

    ghost size = { λ s. 0 };

    fn with(self, n: i64) -> Product {
        match self {
            Product::Empty => Product::of(i128::from(n)),
            Product::Within(p) => Product::of(exact_product(p, n)),
            Product::Beyond if n == 0 => Product::Within(0),
            Product::Beyond => Product::Beyond,
        }
    }
}
