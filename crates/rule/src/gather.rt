// Windows gathered rank by rank.
ghost use Rattle.std.specs.Prelude.{◌≡◌, ℕ, ◌<◌, ◌≤◌, List, [], ◌∷◌, ◌++◌, length};
ghost use Rattle.rule.specs.Ranks.{Ranks, numbers, single, more, flipped, flipped_numbers};
ghost use Rattle.rule.specs.Views.{seen, Gathered};
ghost use Rattle.rule.specs.Windows.{Shaped};

use crate::window::Window;

// The most ranks that a window has.
const MOST: u64 = 25;

impl Window {
    // The window of one rank.
    pub fn of_rank(rank: u16) -> Window
        ensures { seen result ≡ single rank }
    {
        let first = u64::from(rank);
        Window {
            count: 1,
            sum: first,
            squares: first * first,
            lowest: first,
            highest: first,
        }
    }

    // The window with one rank more. A window of 25 ranks is full, and stays as it is.
    pub fn with(self, rank: u16) -> Window
        ensures more { self.count < 25 → seen result ≡ more (seen self) rank }
        ensures full { 25 ≤ self.count → result ≡ self }
    {
        if self.count >= MOST {
            return self;
        }
        let next = u64::from(rank);
        Window {
            count: self.count + 1,
            sum: self.sum + next,
            squares: self.squares + next * next,
            lowest: self.lowest.min(next),
            highest: self.highest.max(next),
        }
    }
}

// The window once one rank more is gathered; before the first there is none.
pub fn gathered(so_far: Option<Window>, rank: u16) -> Window
    ensures ranks { (rs : List ℕ) → Gathered so_far rs → length rs < 25 → seen result ≡ numbers (rs ++ (rank ∷ [])) }
    ensures full { (rs : List ℕ) → Gathered so_far rs → 25 ≤ length rs → seen result ≡ numbers rs }
{
    match so_far {
        None => Window::of_rank(rank),
        Some(window) => window.with(rank),
    }
}

// What holds of the numbers of every window: bounds, the sum's square never above count × squares, and what they
// become when every rank r becomes t - r.
pub fn window_laws()
    ensures shaped { (rs : List ℕ) → Ranks 65535 rs → Shaped (numbers rs) }
    ensures flipped { (t : ℕ) (rs : List ℕ) → Ranks t rs → numbers (flipped t rs) ≡ flipped_numbers t (numbers rs) }
{}
