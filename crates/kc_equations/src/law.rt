//! What is true of each configuration.
ghost use Rattle.std.specs.Prelude.{ℕ, List};
ghost use Rattle.kc_values.specs.Values.{Table};
ghost use Rattle.kc_menu.specs.Menu.{Declared};
ghost use Rattle.kc_menu.specs.declared.menu.KcChoice.{KcChoice};
ghost use Rattle.kc_menu.specs.declared.wishes.Wish.{Wish};
ghost use Rattle.kc_equations.specs.Choices.{IsChoice, TakesOne, TakesNone};
ghost use Rattle.kc_equations.specs.Faults.{NoCycle, IsSolvedOnce, HasOneFault, IsSolvedOrFaulty};
ghost use Rattle.kc_equations.specs.Solution.{HasOneSolution};

/// Where no symbol is on a cycle, there is exactly one solution.
pub fn one_solution()
    ensures { (menu : Declared) → (wishes : List Wish) → NoCycle menu → HasOneSolution menu wishes }
{}

/// A configuration is solved in one way at most, has one first fault at most, and not both.
pub fn one_answer()
    ensures values { (menu : Declared) → (wishes : List Wish) → IsSolvedOnce menu wishes }
    ensures fault { (menu : Declared) → (wishes : List Wish) → HasOneFault menu wishes }
    ensures apart { (menu : Declared) → (wishes : List Wish) → IsSolvedOrFaulty menu wishes }
{}

/// In a solution a visible choice with a visible member has exactly one member that is y, and that member is visible. Of
/// other choices no member is y.
pub fn choices_take_one_member()
    ensures one { (menu : Declared) → (wishes : List Wish) → (values : Table) → (place : ℕ) → (choice : KcChoice)
        → IsChoice menu wishes values place choice → TakesOne menu values place choice }
    ensures none { (menu : Declared) → (wishes : List Wish) → (values : Table) → (place : ℕ) → (choice : KcChoice)
        → IsChoice menu wishes values place choice → TakesNone menu values place choice }
{}
