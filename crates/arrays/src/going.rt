// The first point and its coefficients move on by one step or back by one, with the order and the marks.
ghost use Rattle.arrays.specs.Going.{CanGo, CanGoBack, CanGoForward, GoesBack, GoesForward};

use crate::holding::Held;
use crate::lists::{rotate_left, rotate_right};
use crate::shifts::{lower, raise, shift};
use rules::Round;

impl Held {
    // The second point becomes the first, h being the index of the step to it and b the index that this step takes
    // from.
    pub fn go_forward(&mut self, round: &Round, n: usize, h: usize, b: usize)
        requires can_go { CanGo round.now n h b }
        requires can_go_forward { CanGoForward round.now self.old h b }
        ensures { GoesForward round.now self.old self.new n h b }
    {
        shift(&mut self.first, h, b);
        raise(&mut self.coefficients, &round.previous, h, b);
        rotate_left(&mut self.order, n);
        rotate_left(&mut self.marks, n + 1);
    }

    // A new first point comes in before the first, h being the index of the step from it and b the index that this step
    // takes from.
    pub fn go_back(&mut self, round: &Round, n: usize, h: usize, b: usize)
        requires can_go { CanGo round.now n h b }
        requires can_go_back { CanGoBack round.now self.old h b }
        ensures { GoesBack round.now self.old self.new n h b }
    {
        shift(&mut self.first, b, h);
        lower(&mut self.coefficients, &round.previous, h, b);
        rotate_right(&mut self.order, n);
        rotate_right(&mut self.marks, n + 1);
    }
}
