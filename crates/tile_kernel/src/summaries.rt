//! The summary of each condenser.

ghost use Rattle.std.specs.Prelude.{◌≡◌, ◌+◌, ◌*◌, ◌≤◌, ◌^◌, ℤ, pos, neg_ℤ, ◌+ℤ◌, ◌≤ℤ◌, length};
ghost use Rattle.std.specs.Prelude.{None};
ghost use Rattle.arr_core.specs.Limits.{max_points};
ghost use Rattle.wcps_mean.specs.Best.{greatest_of, least_of};
ghost use Rattle.wcps_mean.specs.Condensers.{total, every, any, trues};
ghost use Rattle.wcps_text.specs.declared.operator.Aggregate.TheVariants as kind;

use crate::joined::{best_of, both, either};
use crate::summary::Summary;
use wcps_mean::{
    Outcome, PointFault, Product, Running, is_set, truth_value, value_or_empty, weight,
};
use wcps_text::Aggregate;

/// Of a sum: the exact sum of so many values.
#[derive(Clone, Copy)]
pub struct Total {
    sum: i128,
    count: u32,
    ghost few: { count ≤ max_points },
    ghost from_below: { neg_ℤ (pos (count * 2 ^ 63)) ≤ℤ sum },
    ghost from_above: { (sum +ℤ pos count) ≤ℤ pos (count * 2 ^ 63) },
}

/// Of an average: the exact sum of so many values.
#[derive(Clone, Copy)]
pub struct Mean {
    total: Total,
}

/// Of a product: its sign, its magnitude, and whether a factor is 0.
#[derive(Clone, Copy)]
pub struct Factors {
    product: Product,
}

/// Of a greatest: the greatest value, if there is any.
#[derive(Clone, Copy)]
pub struct Greatest {
    best: Option<i64>,
}

/// Of a least: the least value, if there is any.
#[derive(Clone, Copy)]
pub struct Least {
    best: Option<i64>,
}

/// Of `every`: whether all values are true.
#[derive(Clone, Copy)]
pub struct AllTrue {
    all: bool,
}

/// Of `any`: whether some value is true.
#[derive(Clone, Copy)]
pub struct SomeTrue {
    some: bool,
}

/// Of a count: how many values are true.
#[derive(Clone, Copy)]
pub struct Trues {
    trues: u32,
    ghost few: { trues ≤ max_points },
}

impl Summary for Total {
    ghost op = { kind.Sum };

    ghost keeps = { λ s zs. (s.sum ≡ total zs) × (s.count ≡ length zs) };

    ghost counted = { λ s. s.count };

    fn none() -> Total {
        Total { sum: 0, count: 0 }
    }

    fn of(x: i64) -> Total {
        Total {
            sum: x as i128,
            count: 1,
        }
    }

    fn with(self, other: Total) -> Total {
        Total {
            sum: self.sum + other.sum,
            count: self.count + other.count,
        }
    }

    fn add(&mut self, x: i64) {
        self.count += 1;
        self.sum += x as i128;
    }

    fn running(self, count: u32, fault: Option<PointFault>) -> Running {
        let mut running = Running::new(Aggregate::Sum);
        running.count = count;
        running.fault = fault;
        running.sum = self.sum;
        running
    }

    fn outcome(self) -> Outcome {
        self.running(self.count, None).finish()
    }
}

impl Summary for Mean {
    ghost op = { kind.Average };

    ghost keeps = { λ s zs. (s.total.sum ≡ total zs) × (s.total.count ≡ length zs) };

    ghost counted = { λ s. s.total.count };

    fn none() -> Mean {
        Mean {
            total: Total::none(),
        }
    }

    fn of(x: i64) -> Mean {
        Mean {
            total: Total::of(x),
        }
    }

    fn with(self, other: Mean) -> Mean {
        Mean {
            total: self.total.with(other.total),
        }
    }

    fn add(&mut self, x: i64) {
        self.total.add(x);
    }

    fn running(self, count: u32, fault: Option<PointFault>) -> Running {
        let mut running = Running::new(Aggregate::Average);
        running.count = count;
        running.fault = fault;
        running.sum = self.total.sum;
        running
    }

    fn outcome(self) -> Outcome {
        self.running(self.total.count, None).finish()
    }
}

impl Summary for Factors {
    ghost use Rattle.wcps_mean.specs.Products.{StandsFor};

    ghost op = { kind.Product };

    ghost keeps = { λ s zs. StandsFor s.product zs };

    ghost counted = { λ s. 0 };

    fn none() -> Factors {
        Factors {
            product: Product::new(),
        }
    }

    fn of(x: i64) -> Factors {
        Factors {
            product: Product::new().times(x),
        }
    }

    fn with(self, other: Factors) -> Factors {
        Factors {
            product: self.product.with(other.product),
        }
    }

    fn running(self, count: u32, fault: Option<PointFault>) -> Running {
        let mut running = Running::new(Aggregate::Product);
        running.count = count;
        running.fault = fault;
        running.product = self.product;
        running
    }

    fn outcome(self) -> Outcome {
        self.product.finish()
    }
}

impl Summary for Greatest {
    ghost op = { kind.Greatest };

    ghost keeps = { λ s zs. s.best ≡ greatest_of zs };

    ghost counted = { λ s. 0 };

    fn none() -> Greatest {
        Greatest { best: None }
    }

    fn of(x: i64) -> Greatest {
        Greatest { best: Some(x) }
    }

    fn with(self, other: Greatest) -> Greatest {
        Greatest {
            best: best_of(Aggregate::Greatest, self.best, other.best),
        }
    }

    fn running(self, count: u32, fault: Option<PointFault>) -> Running {
        let mut running = Running::new(Aggregate::Greatest);
        running.count = count;
        running.fault = fault;
        running.best = self.best;
        running
    }

    fn outcome(self) -> Outcome {
        value_or_empty(self.best)
    }
}

impl Summary for Least {
    ghost op = { kind.Least };

    ghost keeps = { λ s zs. s.best ≡ least_of zs };

    ghost counted = { λ s. 0 };

    fn none() -> Least {
        Least { best: None }
    }

    fn of(x: i64) -> Least {
        Least { best: Some(x) }
    }

    fn with(self, other: Least) -> Least {
        Least {
            best: best_of(Aggregate::Least, self.best, other.best),
        }
    }

    fn running(self, count: u32, fault: Option<PointFault>) -> Running {
        let mut running = Running::new(Aggregate::Least);
        running.count = count;
        running.fault = fault;
        running.best = self.best;
        running
    }

    fn outcome(self) -> Outcome {
        value_or_empty(self.best)
    }
}

impl Summary for AllTrue {
    ghost op = { kind.Every };

    ghost keeps = { λ s zs. s.all ≡ every zs };

    ghost counted = { λ s. 0 };

    fn none() -> AllTrue {
        AllTrue { all: true }
    }

    fn of(x: i64) -> AllTrue {
        AllTrue { all: is_set(x) }
    }

    fn with(self, other: AllTrue) -> AllTrue {
        AllTrue {
            all: both(self.all, other.all),
        }
    }

    fn running(self, count: u32, fault: Option<PointFault>) -> Running {
        let mut running = Running::new(Aggregate::Every);
        running.count = count;
        running.fault = fault;
        running.all = self.all;
        running
    }

    fn outcome(self) -> Outcome {
        truth_value(self.all)
    }
}

impl Summary for SomeTrue {
    ghost op = { kind.Any };

    ghost keeps = { λ s zs. s.some ≡ any zs };

    ghost counted = { λ s. 0 };

    fn none() -> SomeTrue {
        SomeTrue { some: false }
    }

    fn of(x: i64) -> SomeTrue {
        SomeTrue { some: is_set(x) }
    }

    fn with(self, other: SomeTrue) -> SomeTrue {
        SomeTrue {
            some: either(self.some, other.some),
        }
    }

    fn running(self, count: u32, fault: Option<PointFault>) -> Running {
        let mut running = Running::new(Aggregate::Any);
        running.count = count;
        running.fault = fault;
        running.some = self.some;
        running
    }

    fn outcome(self) -> Outcome {
        truth_value(self.some)
    }
}

impl Summary for Trues {
    ghost op = { kind.Count };

    ghost keeps = { λ s zs. s.trues ≡ trues zs };

    ghost counted = { λ s. s.trues };

    fn none() -> Trues {
        Trues { trues: 0 }
    }

    fn of(x: i64) -> Trues {
        Trues { trues: weight(x) }
    }

    fn with(self, other: Trues) -> Trues {
        Trues {
            trues: self.trues + other.trues,
        }
    }

    fn running(self, count: u32, fault: Option<PointFault>) -> Running {
        let mut running = Running::new(Aggregate::Count);
        running.count = count;
        running.fault = fault;
        running.trues = self.trues;
        running
    }

    fn outcome(self) -> Outcome {
        Outcome::Value(self.trues as i64)
    }
}
